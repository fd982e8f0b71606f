// Traverse layouts: the distances of all points of a stack, on its diameter or in its cells.
// Relies on the distance of each point, and on the grids and the ranges of the readings; knows nothing of a job.

#![tactic(auto)]

ghost use Rattle.std.specs.Prelude.{◌≡◌, true};
ghost use Rattle.distances.specs.Round.{round_fits};
ghost use Rattle.distances.specs.Rectangle.{rectangle_fits};
ghost use Rattle.traverse.specs.Layout.{round_layout, rectangle_layout, IsLayout};

use distances::cells::{Cells, cells_of, center};
use distances::diameters::distance;
use grids::GridPoints;
use readings::certificates::NozzleDiameter;
use readings::layouts::{DiameterPoints, LayoutDiameter};
use readings::range::Reading;
use readings::runs::Side;

// The most distances of a layout: two for each of 49 points.
pub const MOST_DISTANCES: usize = 98;

// The first `count` distances, 0.001 in, and zeros after them.
#[derive(Clone, Copy)]
pub struct Layout {
    pub count: usize,
    pub distances: [u32; MOST_DISTANCES],
}

// Whether a round layout is inside its ranges: points on the diameter, diameter in 0.1 in, nozzle in 0.001 in.
#[tactic(auto, unfolding(distances::specs::Round::round_fits))]
pub fn round_fits(points: u16, diameter: u16, nozzle: u16) -> bool
    ensures { result ≡ round_fits points diameter nozzle }
{
    DiameterPoints::check(points)
        && LayoutDiameter::check(diameter)
        && NozzleDiameter::check(nozzle)
}

// Whether a rectangular layout is inside its ranges, sides in 0.1 in. Its diameter 2LW/(L+W) is compared without rounding.
#[tactic(auto, unfolding(distances::specs::Rectangle::rectangle_fits, distances::specs::Rectangle::wide_enough))]
pub fn rectangle_fits(points: u16, first: u16, second: u16) -> bool
    ensures { result ≡ rectangle_fits points first second }
{
    let length = first as u64;
    let width = second as u64;
    GridPoints::check(points)
        && Side::check(first)
        && Side::check(second)
        && LayoutDiameter::LEAST as u64 * (length + width) <= 2 * length * width
}

// The distances of a round stack's points from one wall, across the diameter.
pub fn round(points: u16, diameter: u16, nozzle: u16) -> Layout
    requires { round_fits points diameter nozzle ≡ true }
    ensures { IsLayout (round_layout points diameter nozzle) result }
{
    let n = points as usize;
    let mut distances = [0u32; MOST_DISTANCES];
    for i in 0..n {
        distances[i] = distance(points as u64, diameter as u64, nozzle as u64, i as u64 + 1) as u32;
    }
    Layout {
        count: n,
        distances,
    }
}

// The distances of a rectangular stack's points from the two walls where counting begins: a pair for each point,
// the first side's first. The points go along the first side, row after row.
pub fn rectangle(points: u16, first: u16, second: u16) -> Layout
    requires { rectangle_fits points first second ≡ true }
    ensures { IsLayout (rectangle_layout points first second) result }
{
    let Cells {
        first: columns,
        second: rows,
    } = cells_of(points, first, second);
    let mut distances = [0u32; MOST_DISTANCES];
    let mut at: usize = 0;
    for j in 0..rows {
        for i in 0..columns {
            distances[at] = center(first as u64, columns, i + 1) as u32;
            distances[at + 1] = center(second as u64, rows, j + 1) as u32;
            at += 2;
        }
    }
    Layout {
        count: at,
        distances,
    }
}
