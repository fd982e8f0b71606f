// The parts of a run in a job file, points, segments and weighings: what each holds, the trouble met in it, and the run that
// they make up with its header. Relies on the header's record, on the numbers and the trouble of fields and on the kinds of reading.

#![tactic(auto)]

pub mod part;
mod point;
mod segment;
mod weighing;

ghost use Rattle.std.specs.Prelude.{◌≡◌, ◌*◌, ◌≤◌, length, drop};
ghost use Rattle.fields.specs.Numbers.{u16_at};
ghost use Rattle.records.specs.Records.{sum_to};
ghost use Rattle.parts.specs.Values.{point_size, run_at, RunWithin};

use crate::part::Part;
use fields::numbers;
use heads::header;
use identities::Record;
use opening::JobFile;
use records::{Point, Run, Segment};

// The seconds of `n` records of one size from the front of `t` on: each of a run's points and segments begins with them.
pub fn seconds(t: &[u8], size: usize, n: u8) -> u32
    requires { (2 ≤ size) × (size ≤ point_size) × (size * n ≤ length t.now) }
    ensures { result ≡ sum_to (λ i. u16_at (drop (size * i) t.now) 0) n }
{
    let mut total: u32 = 0;
    for i in 0..n {
        total += numbers::u16_at(t, size * i as usize) as u32;
    }
    total
}

// The run that starts at a place of a file.
pub fn run(f: JobFile<'_>, start: usize) -> Run
    requires { RunWithin f.bytes.now start }
    ensures { result ≡ run_at f.entry.bytes.now start }
{
    let t = Record::at(f, start);
    let header = header::header(t);
    let counts = header.counts;
    let points = counts.points as usize;
    let segments = counts.segments as usize;
    let weighings = counts.weighings as usize;
    let at_points = numbers::tail(t.bytes, header::size(f.version));
    let at_segments = numbers::tail(at_points, Point::SIZE * points);
    let at_weighings = numbers::tail(at_segments, Segment::SIZE * segments);
    Run {
        header,
        points: part::list(at_points, points),
        segments: part::list(at_segments, segments),
        weighings: part::list(at_weighings, weighings),
    }
}
