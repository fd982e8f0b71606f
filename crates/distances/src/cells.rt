// The cells of a rectangular stack and their centers.

ghost use Rattle.std.specs.Prelude.{◌≡◌, true, ◌≤◌};
ghost use Rattle.readings.specs.Ranges.{least_side, greatest_side};
ghost use Rattle.grids.specs.Grids.{grid_points};
ghost use Rattle.distances.specs.Promise.{AtMost};
ghost use Rattle.distances.specs.Rectangle.{grid_of, first_cells, second_cells, center};

use arith::round_div;

// The larger of a grid's two counts of cells: the least whose square is not below the number of points.
fn larger_count(points: u16) -> u64
    requires { grid_points points ≡ true }
    ensures { result ≡ (grid_of points).larger }
{
    let n = points as u64;
    let mut count: u64 = 1;
    while count * count < n {
        count += 1;
    }
    count
}

// How many cells there are along the first and along the second side.
#[derive(Clone, Copy)]
pub struct Cells {
    pub first: u64,
    pub second: u64,
}

// Cells along both sides: the larger count on the longer side, on the first where they are equal.
pub fn cells_of(points: u16, first: u16, second: u16) -> Cells
    requires { grid_points points ≡ true }
    ensures { (result.first ≡ first_cells points first second) × (result.second ≡ second_cells points first second) }
{
    let larger = larger_count(points);
    let smaller = points as u64 / larger;
    if second <= first {
        Cells {
            first: larger,
            second: smaller,
        }
    } else {
        Cells {
            first: smaller,
            second: larger,
        }
    }
}

// The center of cell i along a side, 0.001 in.
pub fn center(side: u64, cells: u64, i: u64) -> u64
    requires { (least_side ≤ side) × (side ≤ greatest_side) × (1 ≤ cells) × (cells ≤ 7) × (1 ≤ i) × (i ≤ cells) }
    ensures { AtMost 999900 (center side cells i) result }
{
    round_div((2 * i - 1) * 100 * side, 2 * cells)
}
