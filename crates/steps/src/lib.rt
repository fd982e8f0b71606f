// The steps of a figure, by value: which of them a distance takes, and how many points they ask for.
// Relies on the diameter of a stack; knows nothing of a file.

#![tactic(auto)]

ghost use Rattle.std.specs.Prelude.{◌≡◌};
ghost use Rattle.diameters.specs.Diameters.{diameter};
ghost use Rattle.steps.specs.Steps.{no_figure, reaches, taken, points_for, asked};

use diameters::{Length, diameter};
use readings::figures::StepCount;
use readings::range::Reading;
use readings::runs::Shape;
use records::Site;

// How many steps a list has room for.
pub const PLACES: usize = StepCount::GREATEST as usize;

// A step: from that distance on, in hundredths of a diameter, so many points, by shape.
#[derive(Clone, Copy)]
pub struct Step {
    pub least: u16,
    pub round: u8,
    pub rectangular: u8,
}

// A figure: the steps for the distance from the last disturbance, and those for the distance to the next. A place without points
// holds no step: so are the places behind the last step of a list, and all of them where there is no figure.
#[derive(Clone, Copy)]
pub struct Figure {
    pub last: [Step; PLACES],
    pub next: [Step; PLACES],
}

// No figure.
#[tactic(auto, unfolding(crate::specs::Steps::no_figure))]
pub fn none() -> Figure
    ensures { result ≡ no_figure }
{
    let none = Step {
        least: 0,
        round: 0,
        rectangular: 0,
    };
    Figure {
        last: [none; PLACES],
        next: [none; PLACES],
    }
}

// Whether a distance of the site reaches a step: hundredths of a diameter against the distance itself, cross-multiplied.
#[tactic(auto, unfolding(crate::specs::Steps::reaches))]
fn reaches(site: Site, distance: u16, step: Step) -> bool
    ensures { result ≡ reaches (diameter site) distance step }
{
    let d = diameter(site);
    step.round != 0 && step.least as u64 * d.over <= 100 * (distance as u64 * d.under)
}

// The last step that the distance reaches, or the first if it reaches none.
#[tactic(auto, using(crate::proofs::Taking::taken_none, crate::proofs::Taking::taken_reached, crate::proofs::Taking::taken_passed))]
fn taken(site: Site, distance: u16, steps: [Step; PLACES]) -> Step
    ensures { result ≡ taken (diameter site) distance steps }
{
    let mut step = steps[0];
    for later in steps {
        if reaches(site, distance, later) {
            step = later;
        }
    }
    step
}

// The points that a step asks for at a site of that shape.
fn points_for(site: Site, step: Step) -> u8
    ensures { result ≡ points_for site step }
{
    if site.shape == Shape::ROUND {
        step.round
    } else {
        step.rectangular
    }
}

// The points that a figure asks for at a site: of the steps that the two distances take, the higher number.
#[tactic(auto, unfolding(crate::specs::Steps::asked))]
pub fn asked(figure: Figure, site: Site) -> u8
    ensures { result ≡ asked figure site }
{
    let from_last = points_for(site, taken(site, site.last, figure.last));
    let to_next = points_for(site, taken(site, site.next, figure.next));
    from_last.max(to_next)
}
