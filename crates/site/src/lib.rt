// Rules 7 to 9: the sampling site, and the least number of points there, by a figure or by the house.
// A rectangle's diameter is a fraction and is never divided out: both sides of a comparison are cross-multiplied.

#![tactic(auto)]

ghost use Rattle.std.specs.Prelude.{◌≡◌};
ghost use Rattle.site.specs.Site.{narrow, disturbed, undisturbed, wide, minimum_disturbed, minimum_points, next_allowed, wrong_points};

use diameters::{diameter, half_diameter};
use grids::GridPoints;
use grounds::Ground;
use grounds::comparison::{Comparison, Way};
use readings::runs::Shape;
use records::Site;
use steps::Figure;

// The least diameter, and the one above which more points are needed, 0.1 in.
const LEAST_DIAMETER: u64 = 120;

const WIDE_DIAMETER: u64 = 240;

// How near the last disturbance may be, in diameters.
const NEAREST_LAST: u64 = 2;

// From where on a site is undisturbed, in diameters from the last disturbance and to the next.
const FAR_LAST: u64 = 8;

const FAR_NEXT: u64 = 2;

// The least numbers of points: at an undisturbed site above 24 in, otherwise by shape, and short of that by the house rule where
// there is no figure.
pub struct LeastPoints;

impl LeastPoints {
    pub const WIDE: u64 = 12;

    pub const ROUND: u64 = 8;

    pub const RECTANGULAR: u64 = 9;

    pub const DISTURBED_ROUND: u64 = 24;

    pub const DISTURBED_RECTANGULAR: u64 = 25;
}

// Rule 7: the diameter is below 12 in.
pub fn narrow(site: Site) -> Ground
    ensures { result ≡ narrow site }
{
    let d = diameter(site);
    Ground::Compared(Comparison {
        left: d.over,
        way: Way::Below,
        right: LEAST_DIAMETER * d.under,
    })
}

// Rule 8: the next disturbance is nearer than half a diameter, or the last one nearer than two.
pub fn disturbed(site: Site) -> Ground
    ensures { result ≡ disturbed site }
{
    let half = half_diameter(site);
    let d = diameter(site);
    Ground::Either(
        Comparison {
            left: site.next as u64 * half.under,
            way: Way::Below,
            right: half.over,
        },
        Comparison {
            left: site.last as u64 * d.under,
            way: Way::Below,
            right: NEAREST_LAST * d.over,
        },
    )
}

// At least 8 diameters from the last disturbance and 2 to the next.
#[tactic(auto, unfolding(crate::specs::Site::undisturbed))]
fn undisturbed(site: Site) -> bool
    ensures { result ≡ undisturbed site }
{
    let d = diameter(site);
    FAR_LAST * d.over <= site.last as u64 * d.under
        && FAR_NEXT * d.over <= site.next as u64 * d.under
}

// Above 24 in: 24 in itself is not.
fn wide(site: Site) -> bool
    ensures { result ≡ wide site }
{
    let d = diameter(site);
    WIDE_DIAMETER * d.under < d.over
}

// The allowed number of points from n on: of a round stack the next multiple of 4, of a rectangular one the next grid.
#[tactic(auto, unfolding(crate::specs::Site::next_allowed))]
pub fn next_allowed(shape: u8, n: u8) -> u64
    ensures { result ≡ next_allowed shape n }
{
    if shape == Shape::ROUND {
        (n as u64).next_multiple_of(4)
    } else {
        GridPoints::next(n as u64)
    }
}

// The least number of points at a site that is not undisturbed: what the figure asks for, raised to an allowed number, or the
// house's own where there is no figure.
#[tactic(auto, unfolding(crate::specs::Site::minimum_disturbed))]
fn minimum_disturbed(figure: Figure, site: Site) -> u64
    ensures { result ≡ minimum_disturbed figure site }
{
    if figure.last[0].round != 0 {
        next_allowed(site.shape, steps::asked(figure, site))
    } else if site.shape == Shape::ROUND {
        LeastPoints::DISTURBED_ROUND
    } else {
        LeastPoints::DISTURBED_RECTANGULAR
    }
}

// The least number of points at a site.
#[tactic(auto, unfolding(crate::specs::Site::minimum_points))]
pub fn minimum_points(figure: Figure, site: Site) -> u64
    ensures { result ≡ minimum_points figure site }
{
    if !undisturbed(site) {
        minimum_disturbed(figure, site)
    } else if wide(site) {
        LeastPoints::WIDE
    } else if site.shape == Shape::ROUND {
        LeastPoints::ROUND
    } else {
        LeastPoints::RECTANGULAR
    }
}

// Rule 9: fewer points than the least number, or a number that is not allowed for the shape.
pub fn wrong_points(shape: u8, least: u64, points: u8) -> Ground
    ensures { result ≡ wrong_points shape least points }
{
    Ground::Either(
        Comparison {
            left: points as u64,
            way: Way::Below,
            right: least,
        },
        Comparison {
            left: points as u64,
            way: Way::Differs,
            right: next_allowed(shape, points),
        },
    )
}
