// The diameter of a stack, as a fraction: a rectangle's is never divided out, and whoever compares it cross-multiplies.
// Relies on what a site holds.

#![tactic(auto)]

ghost use Rattle.diameters.specs.Diameters.{diameter, half_diameter, IsLength};

use readings::runs::Shape;
use records::Site;

// A length as a fraction, over / under, 0.1 in.
#[derive(Clone, Copy)]
pub struct Length {
    pub over: u64,
    pub under: u64,
}

// The stack's diameter: of a rectangle 2LW/(L+W).
#[tactic(auto, unfolding(crate::specs::Diameters::diameter))]
pub fn diameter(site: Site) -> Length
    ensures { IsLength (diameter site) result }
{
    let first = site.first as u64;
    let second = site.second as u64;
    if site.shape == Shape::ROUND {
        Length {
            over: first,
            under: 1,
        }
    } else {
        Length {
            over: 2 * (first * second),
            under: first + second,
        }
    }
}

// Half of it.
#[tactic(auto, unfolding(crate::specs::Diameters::half_diameter))]
pub fn half_diameter(site: Site) -> Length
    ensures { IsLength (half_diameter site) result }
{
    let first = site.first as u64;
    let second = site.second as u64;
    if site.shape == Shape::ROUND {
        Length {
            over: first,
            under: 2,
        }
    } else {
        Length {
            over: first * second,
            under: first + second,
        }
    }
}
