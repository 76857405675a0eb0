// The call that writes a job's standard form.
#![tactic(auto)]

ghost use Rattle.std.specs.Prelude.{◌≡◌, ◌++◌, ◌≤◌, length, drop, None, Some, MatchResult};
ghost use Rattle.buffer.specs.Stored.{HasRoom, Puts, cleared};
ghost use Rattle.model.specs.Refusals.{packed};
ghost use Rattle.model.specs.StandardForm.{record_count, form, write_verdict};
ghost use Rattle.writer.specs.Writable.{Writable, form_front};
ghost use Rattle.writer.specs.FormWritten.{length_size, FormWritten};

use buffer::Cursor;
use job::refusals;
use model::{Header, Part, Refusal};
use sections::header;

// The bytes of a report.
const REPORT_SIZE: usize = 8;

// Where C stands in a header, and where it ends, in bytes.
const COUNT_START: usize = 36;

const COUNT_END: usize = 40;

// The refusal of a report's buffer that is too short.
const SHORT_REPORT: Refusal = Refusal {
    number: 2,
    place: 0,
};

// A refusal: the report is cleared.
fn refused(report: &mut [u8], refusal: Refusal) -> u64
    ensures { (result ≡ packed refusal.number refusal.place) × (report.new ≡ cleared length_size report.old) }
{
    buffer::clear(report, REPORT_SIZE);
    refusal.packed()
}

// C of the form.
fn count(job: &[u8], head: Header) -> usize
    requires { Writable job.now head }
    ensures { (result ≡ record_count job.now) × (result ≤ 512) }
{
    let rows = sections::section(job, head, Part::Rows);
    let records = sections::section(job, head, Part::Records);
    tables::total(rows, records, head)
}

// The form's bytes, given C.
fn size(job: &[u8], head: Header, count: usize) -> usize
    requires { Writable job.now head × (count ≡ record_count job.now) × (count ≤ 512) }
    ensures { (result ≡ length (form job.now)) × (result ≤ 655104) }
{
    4 * (sections::start(head, Part::Records) + model::RECORD_WORDS * count)
}

// The header with C, the lines and the effects.
fn put_front(w: &mut Cursor, job: &[u8], head: Header, count: usize)
    requires { Writable job.now head × (count ≡ record_count job.now) × HasRoom (length (form_front job.now)) w.old }
    ensures { Puts w.old (form_front job.now) w.new }
{
    let rows = 4 * sections::start(head, Part::Rows);
    w.put(&job[0..COUNT_START]);
    w.put_word(count);
    w.put(&job[COUNT_END..rows]);
}

// The form, in front of the buffer; the rest keeps its contents.
fn put_form(out: &mut [u8], job: &[u8], head: Header, count: usize)
    requires { Writable job.now head × (count ≡ record_count job.now) × (length (form job.now) ≤ length out.old) }
    ensures { out.new ≡ form job.now ++ drop (length (form job.now)) out.old }
{
    let rows = sections::section(job, head, Part::Rows);
    let records = sections::section(job, head, Part::Records);
    let mut w = Cursor { out, at: 0 };
    put_front(&mut w, job, head, count);
    tables::put_rows(&mut w, rows, records, head);
    tables::put_chains(&mut w, rows, records, head);
}

// The form in front of the buffer, and its length; a refusal leaves the buffer as it was.
fn form(job: &[u8], out: &mut [u8]) -> Result<usize, Refusal>
    ensures { MatchResult result (λ n. (write_verdict job.now (length out.old) ≡ None) × (n ≡ length (form job.now)) × (n ≤ 655104) × (out.new ≡ form job.now ++ drop (length (form job.now)) out.old)) (λ r. (write_verdict job.now (length out.old) ≡ Some r) × (out.new ≡ out.old)) }
{
    refusals::highway_verdict(job)?;
    let head = header::read(job);
    let records = count(job, head);
    let bytes = size(job, head, records);
    if out.len() < bytes {
        return Err(Refusal {
            number: 12,
            place: bytes as u32,
        });
    }
    put_form(out, job, head, records);
    Ok(bytes)
}

// The whole call.
pub fn write(job: &[u8], out: &mut [u8], report: &mut [u8]) -> u64
    ensures { FormWritten job.now out.old report.old result out.new report.new }
{
    if report.len() < REPORT_SIZE {
        return refused(report, SHORT_REPORT);
    }
    match form(job, out) {
        Ok(bytes) => {
            numbers::put_count(&mut Cursor { out: report, at: 0 }, bytes as u64);
            0
        }
        Err(refusal) => refused(report, refusal),
    }
}
