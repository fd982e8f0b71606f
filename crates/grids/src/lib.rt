// The grids of a rectangular stack: which numbers of points there are, in a run and in a layout.
// Relies on the lists of `numbered`.

#![tactic(auto)]

ghost use Rattle.std.specs.Prelude.{◌≡◌};
ghost use Rattle.grids.specs.Grids.{grid_points, next_grid};

// Points of a rectangular grid, one in each cell: 3x3, 4x3, 4x4, 5x4, 5x5, 6x5, 6x6, 7x6 or 7x7.
pub struct GridPoints;

// The numbers of points, the largest last.
const GRIDS: [u64; 9] = [9, 12, 16, 20, 25, 30, 36, 42, 49];

impl GridPoints {
    // The first of them that is not below n, or the largest.
    pub fn next(n: u64) -> u64
        ensures { result ≡ next_grid n }
    {
        for grid in &GRIDS {
            if n <= *grid {
                return *grid;
            }
        }
        GRIDS[8]
    }

    pub fn check(value: u16) -> bool
        ensures { result ≡ grid_points value }
    {
        let n = value as u64;
        n == GridPoints::next(n)
    }
}
