// Points on the diameter of a round stack. Positions are thousandths of the diameter and worked from the equal-area rule.

ghost use Rattle.std.specs.Prelude.{◌≡◌, true, ◌*◌, ◌≤◌};
ghost use Rattle.readings.specs.Ranges.{diameter_points, greatest_nozzle_diameter};
ghost use Rattle.distances.specs.Promise.{AtMost};
ghost use Rattle.distances.specs.Positions.{near_position, position};
ghost use Rattle.distances.specs.Round.{round_fits, margin, kept, distance};

use arith::{nearest_root, round_div};

// A stack of 24 in, 0.1 in: the widest whose points may stand nearer to the wall.
const NARROW: u64 = 240;

// What a point keeps from the walls, 0.001 in.
const NARROW_MARGIN: u64 = 500;

const WIDE_MARGIN: u64 = 1000;

// Point i of n, for i up to n/2: half the diameter, 500, less the radius that has (n - 2i + 1)/n of the area inside it.
fn near_position(n: u64, i: u64) -> u64
    requires points { diameter_points n ≡ true }
    requires near { (1 ≤ i) × (2 * i ≤ n) }
    ensures { AtMost 499 (near_position n i) result }
{
    500 - nearest_root(1000000 * (n - 2 * i + 1) / n)
}

// Point i of n, from the near wall: the far half mirrors the near one.
fn position(n: u64, i: u64) -> u64
    requires points { diameter_points n ≡ true }
    requires point { (1 ≤ i) × (i ≤ n) }
    ensures { AtMost 1000 (position n i) result }
{
    if 2 * i <= n {
        return near_position(n, i);
    }
    1000 - near_position(n, n + 1 - i)
}

// How far a point stays from the walls, 0.001 in.
fn margin(diameter: u64, nozzle: u64) -> u64
    requires { nozzle ≤ greatest_nozzle_diameter }
    ensures { AtMost 1000 (margin diameter nozzle) result }
{
    if diameter <= NARROW {
        return nozzle.max(NARROW_MARGIN);
    }
    nozzle.max(WIDE_MARGIN)
}

// A distance that is nearer than the margin to a wall of a stack this wide is moved to the margin.
fn kept(margin: u64, width: u64, distance: u64) -> u64
    requires { 2 * margin ≤ width }
    ensures { result ≡ kept margin width distance }
{
    distance.clamp(margin, width - margin)
}

// The distance of point i of n from the near wall, 0.001 in. The stack is 100 * diameter wide.
pub fn distance(n: u64, diameter: u64, nozzle: u64, i: u64) -> u64
    requires layout { round_fits n diameter nozzle ≡ true }
    requires point { (1 ≤ i) × (i ≤ n) }
    ensures { AtMost 999900 (distance n diameter nozzle i) result }
{
    let measured = round_div(position(n, i) * diameter, 10);
    kept(margin(diameter, nozzle), 100 * diameter, measured)
}
