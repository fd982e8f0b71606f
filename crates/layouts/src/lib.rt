// The calls for traverse layouts: each asks nothing of its caller, and answers a refusal or writes the distances.
// Relies on the distances that `traverse` promises and on the writers of `output`.

#![tactic(auto)]

ghost use Rattle.std.specs.Prelude.{◌≡◌, ◌*◌, ◌≤◌, length, take};
ghost use Rattle.traverse.specs.Layout.{most_distances};
ghost use Rattle.output.specs.Answers.{answer_told};
ghost use Rattle.output.specs.Splice.{spliced};
ghost use Rattle.layouts.specs.Outcomes.{Answered, lent_outcome, round_outcome, rectangle_outcome, distance_size, distance_bytes};

use output::{Refusal, put_number};
use refusals::Reason;
use traverse::{Layout, rectangle, rectangle_fits, round, round_fits};

// Bytes of a distance in the output.
const DISTANCE_SIZE: usize = 4;

// Distances, one after another from the front.
fn put_distances(distances: &[u32], out: &mut [u8])
    requires { distance_size * length distances.now ≤ length out.old }
    ensures { out.new ≡ spliced out.old 0 (distance_bytes distances.now) }
{
    for (i, distance) in distances.iter().enumerate() {
        put_number(out, DISTANCE_SIZE * i, DISTANCE_SIZE, *distance as u64);
    }
}

// A layout written, where the output has room for it.
fn put_layout(layout: Layout, out: &mut [u8]) -> Result<u32, Refusal>
    requires { layout.count ≤ most_distances }
    ensures { Answered (lent_outcome (take layout.count layout.distances) (length out.old)) out.old out.new (answer_told result) }
{
    let size = DISTANCE_SIZE * layout.count;
    if out.len() < size {
        return Err(Reason::ShortOutput.into());
    }
    put_distances(&layout.distances[..layout.count], out);
    Ok(size as u32)
}

// The layout of a round stack: points on the diameter, diameter in 0.1 in, nozzle in 0.001 in.
// A distance for each point, 0.001 in.
pub fn round_layout(points: u16, diameter: u16, nozzle: u16, out: &mut [u8]) -> Result<u32, Refusal>
    ensures { Answered (round_outcome points diameter nozzle (length out.old)) out.old out.new (answer_told result) }
{
    if !round_fits(points, diameter, nozzle) {
        return Err(Reason::OutsideRanges.into());
    }
    put_layout(round(points, diameter, nozzle), out)
}

// The layout of a rectangular stack, sides in 0.1 in. Two distances for each point, 0.001 in, the first side's first.
pub fn rectangle_layout(
    points: u16,
    first: u16,
    second: u16,
    out: &mut [u8],
) -> Result<u32, Refusal>
    ensures { Answered (rectangle_outcome points first second (length out.old)) out.old out.new (answer_told result) }
{
    if !rectangle_fits(points, first, second) {
        return Err(Reason::OutsideRanges.into());
    }
    put_layout(rectangle(points, first, second), out)
}
