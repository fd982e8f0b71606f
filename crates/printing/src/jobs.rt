// What the program prints of a file: a refusal, or its runs in file order.

ghost use Rattle.std.specs.Prelude.{◌≤◌, length};
ghost use Rattle.characters.specs.Writing.{Room, Wrote, WroteFront};
ghost use Rattle.printing.specs.Jobs.{refusal_text, runs_text, job_text};

use characters::Writer;
use fields::trouble::BadFile;
use findings::Sought;
use job::clear::ClearFile;
use reduction::reduce;
use steps::Figure;
use text::runs::put_run;

// Room for the text of any file: sixteen runs, each with all of its findings.
pub const ROOM: usize = 27088;

// A refusal: its number and its place.
fn put_refusal(to: &mut Writer<'_>, e: BadFile)
    requires { Room to.old (refusal_text e.number e.place) }
    ensures { Wrote to.old (refusal_text e.number e.place) to.new }
{
    to.word(b"REFUSED ");
    to.decimal(e.number as u64);
    to.word(b" ");
    to.decimal(e.place as u64);
    to.word(b"\n");
}

// The runs of a job without trouble, by a figure, from the front of a buffer: how many characters they are.
pub fn put_runs(figure: Figure, read: ClearFile<'_>, out: &mut [u8]) -> usize
    requires { 27088 ≤ length out.old }
    ensures { WroteFront out.old (runs_text figure read.entry.file.bytes.now read.entry.job.runs) out.new result }
{
    let mut to = Writer { out, at: 0 };
    for k in 0..read.job.runs {
        put_run(&mut to, reduce(read, figure, k, Sought::All));
    }
    to.at
}

// All that is printed of a file, by a figure, from the front of a buffer: how many characters it is.
pub fn put_job(figure: Figure, s: &[u8], out: &mut [u8]) -> usize
    requires { 27088 ≤ length out.old }
    ensures { WroteFront out.old (job_text figure s.now) out.new result }
{
    match job::read(s) {
        Ok(read) => put_runs(figure, read, out),
        Err(e) => {
            let mut to = Writer { out, at: 0 };
            put_refusal(&mut to, e);
            to.at
        }
    }
}
