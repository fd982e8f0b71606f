// The calls for one of a job's runs, by a figure or without one: the run worked and handed over.
// Relies on the reader, on a run's reduction and on how a reduced run is handed over.

#![tactic(auto)]

ghost use Rattle.std.specs.Prelude.{◌≡◌};
ghost use Rattle.fields.specs.Trouble.{Clear};
ghost use Rattle.steps.specs.Steps.{no_figure};
ghost use Rattle.opening.specs.Opening.{file_trouble};
ghost use Rattle.figures.specs.Figures.{read_figure};
ghost use Rattle.output.specs.Answers.{answer_told};
ghost use Rattle.runs.specs.Outcomes.{Answers, AnswersBy};

use findings::Sought;
use handing::hand_over;
use output::Refusal;
use reduction::find_run;
use refusals::Reason;
use steps::Figure;

// Works the run of that number, by a figure, into two buffers, where the job's header is known to be in no trouble.
fn reduce_by(
    figure: Figure,
    job: &[u8],
    run: u16,
    lines: &mut [u8],
    findings: &mut [u8],
) -> Result<u32, Refusal>
    requires { file_trouble job.now ≡ Clear }
    ensures { Answers figure job.now run lines.old findings.old lines.new findings.new (answer_told result) }
{
    let read = job::read_records(job)?;
    let k = find_run(read, run).ok_or(Reason::UnknownRun)?;
    hand_over(
        reduction::reduce(read, figure, k, Sought::All),
        lines,
        findings,
    )
}

// Works the run of that number without a figure. The header is judged by itself, so that a file which is no job is answered
// before anything is made ready for one.
pub fn reduce(job: &[u8], run: u16, lines: &mut [u8], findings: &mut [u8]) -> Result<u32, Refusal>
    ensures { Answers no_figure job.now run lines.old findings.old lines.new findings.new (answer_told result) }
{
    opening::trouble(job)?;
    reduce_by(steps::none(), job, run, lines, findings)
}

// The same by the figure in a file, which is judged before the job is read.
pub fn reduce_by_figure(
    figure: &[u8],
    job: &[u8],
    run: u16,
    lines: &mut [u8],
    findings: &mut [u8],
) -> Result<u32, Refusal>
    ensures { AnswersBy (read_figure figure.now) job.now run lines.old findings.old lines.new findings.new (answer_told result) }
{
    let supplied = figures::read(figure)?;
    opening::trouble(job)?;
    reduce_by(supplied, job, run, lines, findings)
}
