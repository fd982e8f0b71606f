// The calls that count a job's runs: how many there are, and the number of each.
// Relies on the reader alone.

#![tactic(auto)]

ghost use Rattle.std.specs.Prelude.{◌≡◌};
ghost use Rattle.output.specs.Answers.{answer_told};
ghost use Rattle.counting.specs.Counting.{count_answer, number_answer};

use fields::numbers;
use output::Refusal;
use refusals::Reason;

// How many runs a job holds.
pub fn run_count(job: &[u8]) -> Result<u32, Refusal>
    ensures { answer_told result ≡ count_answer job.now }
{
    let read = job::read(job)?;
    Ok(read.job.runs as u32)
}

// The number of a job's run, by its index from 0 in file order.
pub fn run_number(job: &[u8], index: u16) -> Result<u32, Refusal>
    ensures { answer_told result ≡ number_answer job.now index }
{
    let read = job::read(job)?;
    let k = index as usize;
    if read.job.runs <= k {
        return Err(Reason::UnknownRun.into());
    }
    Ok(numbers::u16_at(numbers::tail(job, read.job.starts[k]), 0) as u32)
}
