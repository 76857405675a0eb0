// Reads a job from standard input and prints its four lines, or its refusal.
#![tactic(auto)]

ghost use Rattle.std.specs.Prelude.{◌≡◌, ◌≤◌, length, take};
ghost use Rattle.hnho.specs.Printed.{Printed};

use std::io;
use std::io::Write;

// The text that is printed of a job, at the front of a buffer; answers where it ends.
fn reply(job: &[u8], text: &mut [u8; print::SIZE]) -> usize
    ensures upper_bound { (result ≤ length text.new) × (result ≡ length (take result text.new)) }
    ensures printed { Printed job.now (take result text.new) }
{
    let mut patch = [0u8; 1000];
    let answer = kernel::solve(job, &mut patch);
    print::text(answer, text)
}

// Says on standard error what failed and why.
fn fail(rt: &HostRuntime, what: &str, error: io::Error) -> io::Result<()> {
    let text = format!(in rt.alloc(); "{error}")?;
    let whole = text.as_str();
    let reason = match whole.find(" (os error ") {
        Some(end) => &whole[..end],
        None => whole,
    };
    eprintln!(rt; "{what}: {reason}")
}

fn main(rt: HostRuntime) -> io::Result<()> {
    let mut buffer = [0u8; 32768];
    let mut source = rt.stdin();
    let n = match input::read_full(&mut source, &mut buffer) {
        Ok(n) => n,
        Err(error) => return fail(&rt, "standard input", error),
    };
    let mut text = [0u8; print::SIZE];
    let end = reply(&buffer[..n], &mut text);
    let mut output = rt.stdout();
    match output.write_all(&text[..end]) {
        Ok(()) => Ok(()),
        Err(error) => fail(&rt, "standard output", error),
    }
}
