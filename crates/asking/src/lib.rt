// The calls for one of a run's findings, explained, by a figure or without one.
// Relies on the reader, on a finding's explanation, on how it is written and on how a text is handed over.

#![tactic(auto)]

ghost use Rattle.figures.specs.Figures.{read_figure};
ghost use Rattle.printed.specs.Printing.{HandsOver};
ghost use Rattle.explanations.specs.Written.{written};
ghost use Rattle.output.specs.Answers.{answer_told};
ghost use Rattle.asking.specs.Outcomes.{Explains, ExplainsBy};

use explaining::{Explanation, explain_run};
use explanations::put_explanation;
use forms::Form;
use output::Refusal;
use reduction::find_run;
use refusals::Reason;
use steps::Figure;

// Room for any explanation, as bytes or as text.
const ROOM: usize = 1024;

// An explanation, by way of a buffer with room for any.
fn put_by_way<F: Form>(e: Explanation, out: &mut [u8]) -> Result<u32, Refusal>
    ensures { HandsOver (written F.form e) out.old out.new (answer_told result) }
{
    let mut way = [0u8; ROOM];
    let end = put_explanation::<F>(&mut way, e);
    printed::hand_over(&way[..end], out)
}

// Explains a finding of the run of that number, by a figure, into an output of any length, or refuses before a byte is written.
pub fn explain<F: Form>(
    figure: Figure,
    job: &[u8],
    run: u16,
    rule: u16,
    place: u16,
    out: &mut [u8],
) -> Result<u32, Refusal>
    ensures { Explains F.form figure job.now run rule place out.old out.new (answer_told result) }
{
    let read = job::read(job)?;
    let k = find_run(read, run).ok_or(Reason::UnknownRun)?;
    let e = explain_run(read, figure, k, rule, place).ok_or(Reason::UnknownFinding)?;
    put_by_way::<F>(e, out)
}

// The same by the figure in a file, which is judged before the job is read.
pub fn explain_by_figure<F: Form>(
    figure: &[u8],
    job: &[u8],
    run: u16,
    rule: u16,
    place: u16,
    out: &mut [u8],
) -> Result<u32, Refusal>
    ensures { ExplainsBy F.form (read_figure figure.now) job.now run rule place out.old out.new (answer_told result) }
{
    explain::<F>(figures::read(figure)?, job, run, rule, place, out)
}
