// Answers every case of the file `jobs` and prints what comes of each. A case is the job's length and the patch buffer's, in two bytes each, low byte first, then the patch buffer and the job.
#![tactic(auto)]

ghost use Rattle.std.specs.Prelude.{◌≤◌, length};

use model::Answer;
use std::fs::File;
use std::io;
use std::io::Write;

// More cases than any file has.
const MOST_CASES: u64 = 1000000;

// The sum of the bytes, each times its number from 1 on.
fn weighted_sum(bytes: &[u8]) -> usize
    requires { length bytes.now ≤ 65535 }
{
    let mut sum = 0;
    for (i, b) in bytes.iter().enumerate() {
        sum += (i + 1) * usize::from(*b);
    }
    sum
}

// Prints an answer, its patch buffer's sum and the records walked.
fn show(rt: &HostRuntime, a: Answer, sum: usize) -> io::Result<()> {
    let walked = kernel::told(a).walked;
    let mut text = [0u8; print::SIZE];
    let end = print::text(a, &mut text);
    let mut output = rt.stdout();
    output.write_all(&text[..end])?;
    println!(rt; "patch {sum} records {walked}")
}

// Reads the rest of a case into buffers of its lengths, and prints what comes of it.
fn answer(rt: &HostRuntime, jobs: &mut File, job: &mut [u8], patch: &mut [u8]) -> io::Result<()>
    requires { length patch.old ≤ 65535 }
{
    input::read_full(jobs, patch)?;
    let n = input::read_full(jobs, job)?;
    let a = kernel::solve(&job[..n], patch);
    show(rt, a, weighted_sum(patch))
}

// Reads one case, prints what comes of it, and answers whether to go on.
fn one(rt: &HostRuntime, jobs: &mut File) -> io::Result<bool> {
    let mut head = [0u8; 4];
    if input::read_full(jobs, &mut head)? < 4 {
        return Ok(false);
    }
    let n = usize::from(u16::from_le_bytes([head[0], head[1]]));
    let m = usize::from(u16::from_le_bytes([head[2], head[3]]));
    let mut job = [0u8; 65535];
    let mut patch = [0u8; 65535];
    answer(rt, jobs, &mut job[0..n], &mut patch[0..m])?;
    Ok(true)
}

// Reads and answers every case.
fn all(rt: &HostRuntime, jobs: &mut File) -> io::Result<()> {
    for _ in 0..MOST_CASES {
        if !one(rt, jobs)? {
            break;
        }
    }
    Ok(())
}

fn main(rt: HostRuntime) -> io::Result<()> {
    let mut jobs = File::open(&rt, "jobs")?;
    all(&rt, &mut jobs)
}
