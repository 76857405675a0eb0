// A rating as bytes for a host: nine numbers of eight bytes each, in two's complement, lowest byte first, in the order of `report_numbers`.
#![tactic(auto)]

ghost use Rattle.std.specs.Prelude.{◌≡◌, ◌++◌, ◌≤◌, length, drop};
ghost use Rattle.buffer.specs.Stored.{HasRoom};
ghost use Rattle.model.specs.Trains.{report_size};
ghost use Rattle.numbers.specs.NumberBytes.{numbers_bytes, Written, ReadBack};
ghost use Rattle.reports.specs.ReportNumbers.{stand_numbers, report_numbers};

use buffer::Cursor;
use model::{Rating, TrainExtreme};

// The bytes of a report.
pub const SIZE: usize = 72;

// A stand.
fn put_stand(w: &mut Cursor, x: TrainExtreme)
    requires { HasRoom 24 w.old }
    ensures { Written w.old (stand_numbers x) w.new }
{
    numbers::put_count(w, u64::from(x.way));
    numbers::put_count(w, u64::from(x.side));
    numbers::put_signed(w, x.station);
}

// The bytes of a report at the front of a buffer; the rest keeps its contents.
pub fn write(out: &mut [u8], r: Rating)
    requires { report_size ≤ length out.old }
    ensures { (out.new ≡ numbers_bytes (report_numbers r) ++ drop report_size out.old) × ReadBack out.new (report_numbers r) }
{
    let mut w = Cursor { out, at: 0 };
    numbers::put_signed(&mut w, r.greatest.value);
    numbers::put_signed(&mut w, r.least.value);
    numbers::put_signed(&mut w, r.difference);
    put_stand(&mut w, r.greatest);
    put_stand(&mut w, r.least);
}
