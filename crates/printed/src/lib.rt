// The calls for the text of a job, by a figure or without one. Relies on what is printed of a job and on the reader.

#![tactic(auto)]

ghost use Rattle.std.specs.Prelude.{◌^◌, ◌<◌, length};
ghost use Rattle.figures.specs.Figures.{read_figure};
ghost use Rattle.output.specs.Answers.{answer_told};
ghost use Rattle.printing.specs.Jobs.{job_text};
ghost use Rattle.printed.specs.Printing.{HandsOver, Prints, PrintsBy};

use job::clear::ClearFile;
use output::Refusal;
use printing::jobs::{ROOM, put_runs};
use refusals::Reason;
use steps::Figure;

// Hands a text over that was written beside the output, since how long it is shows only then: an output that is too short stays as it
// was.
pub fn hand_over(text: &[u8], out: &mut [u8]) -> Result<u32, Refusal>
    requires { length text.now < 2 ^ 32 }
    ensures { HandsOver text.now out.old out.new (answer_told result) }
{
    if out.len() < text.len() {
        return Err(Reason::ShortOutput.into());
    }
    out[..text.len()].copy_from_slice(text);
    Ok(text.len() as u32)
}

// The text of a job without trouble, by way of a buffer with room for any.
fn put_by_way(figure: Figure, read: ClearFile<'_>, out: &mut [u8]) -> Result<u32, Refusal>
    ensures { HandsOver (job_text figure read.entry.file.bytes.now) out.old out.new (answer_told result) }
{
    let mut way = [0u8; ROOM];
    let end = put_runs(figure, read, &mut way);
    hand_over(&way[..end], out)
}

// Writes the text of a job, by a figure, into an output of any length, or refuses before a byte is written.
pub fn sheet_text(figure: Figure, s: &[u8], out: &mut [u8]) -> Result<u32, Refusal>
    ensures { Prints figure s.now out.old out.new (answer_told result) }
{
    let read = job::read(s)?;
    if out.len() < ROOM {
        return put_by_way(figure, read, out);
    }
    Ok(put_runs(figure, read, out) as u32)
}

// The same by the figure in a file, which is judged before the job is read.
pub fn sheet_text_by_figure(figure: &[u8], s: &[u8], out: &mut [u8]) -> Result<u32, Refusal>
    ensures { PrintsBy (read_figure figure.now) s.now out.old out.new (answer_told result) }
{
    sheet_text(figures::read(figure)?, s, out)
}
