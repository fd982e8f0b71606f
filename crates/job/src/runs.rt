// The runs of a job: each in itself, their numbers rising, and nothing after the last.

ghost use Rattle.std.specs.Prelude.{◌≡◌, ◌+◌, ◌≤◌, length, IfOk};
ghost use Rattle.fields.specs.Trouble.{first};
ghost use Rattle.fields.specs.Refusals.{trouble_of};
ghost use Rattle.arrays.specs.Arrays.{padded};
ghost use Rattle.heads.specs.Values.{run_header_size};
ghost use Rattle.readings.specs.Ranges.{greatest_run_count};
ghost use Rattle.parts.specs.Values.{segment_place};
ghost use Rattle.job.specs.Places.{next_start, run_start};
ghost use Rattle.job.specs.Troubles.{good_seconds, parts_trouble, run_trouble, runs_trouble, end_trouble};

use fields::numbers;
use fields::trouble::BadFile;
use heads::header::{self, Rest};
use identities::Record;
use opening::JobFile;
use parts::part::{self, Part};
use readings::headers::RunCount;
use readings::points::TotalSeconds;
use readings::range::Reading;
use records::{Counts, Point, Segment, Weighing};
use refusals::Reason;

fn good_seconds(f: JobFile<'_>, start: usize, n: Counts) -> bool
    requires { segment_place f.version start n n.segments ≤ length f.bytes.now }
    ensures { result ≡ good_seconds f.entry.bytes.now start n }
{
    let at = start + header::size(f.version);
    let by_points = parts::seconds(numbers::tail(f.bytes, at), Point::SIZE, n.points);
    let at_segments = at + Point::SIZE * (n.points as usize);
    let by_segments = parts::seconds(
        numbers::tail(f.bytes, at_segments),
        Segment::SIZE,
        n.segments,
    );
    TotalSeconds::check(by_points) && by_segments == by_points
}

// The trouble of what follows a run's header.
fn parts_trouble(f: JobFile<'_>, start: usize, n: Counts) -> Result<(), BadFile>
    requires { start + run_header_size f.version ≤ length f.bytes.now }
    ensures { trouble_of result ≡ parts_trouble f.entry.bytes.now start n }
{
    let at_points = start + header::size(f.version);
    part::troubles::<Point>(f.bytes, at_points, n.points)?;
    let at_segments = at_points + Point::SIZE * (n.points as usize);
    part::troubles::<Segment>(f.bytes, at_segments, n.segments)?;
    let at_weighings = at_segments + Segment::SIZE * (n.segments as usize);
    part::troubles::<Weighing>(f.bytes, at_weighings, n.weighings)?;
    if !good_seconds(f, start, n) {
        return Err(BadFile {
            number: Reason::Seconds.number(),
            place: start,
        });
    }
    Ok(())
}

// The trouble of a run whose number has to be above `lower`.
fn run_trouble(f: JobFile<'_>, start: usize, lower: u16) -> Result<(), BadFile>
    requires { start ≤ length f.bytes.now }
    ensures { trouble_of result ≡ run_trouble f.entry.bytes.now start lower }
{
    header::trouble(f, start)?;
    let h = header::header(Record::at(f, start));
    if h.number <= lower {
        return Err(BadFile {
            number: Reason::Repeated.number(),
            place: start,
        });
    }
    parts_trouble(f, start, h.counts)
}

// The place after the run that starts at `start`.
fn next_start(f: JobFile<'_>, start: usize) -> usize
    requires { start + run_header_size f.version ≤ length f.bytes.now }
    ensures { result ≡ next_start f.entry.bytes.now start }
{
    let n = Rest::of(Record::at(f, start)).counts();
    let at_segments = start + header::size(f.version) + Point::SIZE * (n.points as usize);
    let at_weighings = at_segments + Segment::SIZE * (n.segments as usize);
    at_weighings + Weighing::SIZE * (n.weighings as usize)
}

// Where each of the `n` runs of the file starts, of which the first starts at `start`; or the first trouble met in them or behind them.
pub fn read(
    f: JobFile<'_>,
    start: usize,
    n: usize,
) -> Result<[usize; RunCount::GREATEST as usize], BadFile>
    requires { (n ≤ greatest_run_count) × (start ≡ run_start f.bytes.now 0) × (start ≤ length f.bytes.now) }
    ensures trouble { trouble_of result ≡ first (runs_trouble f.entry.bytes.now n) (end_trouble f.entry.bytes.now (run_start f.entry.bytes.now n)) }
    ensures starts { IfOk result (λ starts. starts ≡ padded greatest_run_count 0 (run_start f.entry.bytes.now) n) }
{
    let mut starts = [0; RunCount::GREATEST as usize];
    let mut at = start;
    let mut lower = 0;
    for k in 0..n {
        run_trouble(f, at, lower)?;
        starts[k] = at;
        lower = numbers::u16_at(numbers::tail(f.bytes, at), 0);
        at = next_start(f, at);
    }
    if at < f.bytes.len() {
        return Err(BadFile {
            number: Reason::LeftOver.number(),
            place: at,
        });
    }
    Ok(starts)
}
