// The entries for hosts written in C; include/hnho.h declares them.
#![tactic(auto)]

ghost use Rattle.std.specs.Prelude.{◌≡◌};
ghost use Rattle.encode.specs.Encoding.{layout};
ghost use Rattle.trains.specs.Rated.{Rated};
ghost use Rattle.writer.specs.FormWritten.{FormWritten};
ghost use Rattle.host.specs.Hosted.{Hosted};

// The number of the account's layout, for a host to compare with its header's.
#[unsafe(no_mangle)]
pub extern "C" fn hnho_layout() -> u32
    ensures { result ≡ layout }
{
    encode::LAYOUT
}

// Solves a job, writes the account's bytes and packs refusal and place into one number, 0 for acceptance. An account buffer under an account's size is refused with 2 at place 0, its bytes cleared.
#[unsafe(no_mangle)]
pub extern "C" fn hnho_solve(job: &[u8], patch: &mut [u8], account: &mut [u8]) -> u64
    ensures { Hosted job.now patch.old account.old result patch.new account.new }
{
    if account.len() < encode::SIZE {
        buffer::clear(account, encode::SIZE);
        return 2;
    }
    let answer = kernel::solve(job, patch);
    encode::write(account, kernel::told(answer));
    match answer {
        Ok(_) => 0,
        Err(refusal) => refusal.packed(),
    }
}

// Rates a train on a line, writes the report's bytes and packs refusal and place into one number, 0 for a rating. A refusal clears the report's bytes, as far as the buffer has them.
#[unsafe(no_mangle)]
pub extern "C" fn hnho_train(
    h: usize,
    pieces: usize,
    line: &[u8],
    train: &[model::Axle],
    mode: usize,
    report: &mut [u8],
) -> u64
    ensures { Rated (record { h = h; pieces = pieces; section = line.now; train = train.now; mode = mode }) report.old result report.new }
{
    let g = axles::gather(train);
    trains::rate(h, pieces, line, g, mode, report)
}

// Writes a job's standard form and its length, and packs refusal and place into one number, 0 for a form that was written. A refusal clears the report's bytes, as far as the buffer has them, and leaves the form's buffer as it was.
#[unsafe(no_mangle)]
pub extern "C" fn hnho_write(job: &[u8], form: &mut [u8], report: &mut [u8]) -> u64
    ensures { FormWritten job.now form.old report.old result form.new report.new }
{
    writer::write(job, form, report)
}
