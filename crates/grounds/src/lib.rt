// What a rule goes by at one place, and whether that breaks it. A rule that compares numbers is its comparison.
// Nothing here knows which rule it is.

#![tactic(auto)]

pub mod comparison;

ghost use Rattle.std.specs.Prelude.{◌≡◌, length};
ghost use Rattle.grounds.specs.Grounds.{broken};
ghost use Rattle.grounds.specs.Showing.{shown};

use crate::comparison::{Comparison, ExactComparison};

#[derive(Clone, Copy)]
pub enum Ground {
    // What the rule speaks of is not there.
    Silent,
    // The job holds no certificate so dated.
    NoCertificate,
    // Two numbers, one set against the other.
    Compared(Comparison),
    // Two conditions: either breaks the rule, and both break it once.
    Either(Comparison, Comparison),
    // A quotient and its remainder, set against a limit and 0.
    Exactly(ExactComparison),
    // A signed line that must not be below its limit.
    SignedBelow(i64, i64),
}

impl Ground {
    #[tactic(auto, unfolding(crate::specs::Grounds::broken))]
    pub fn broken(self) -> bool
        ensures { result ≡ broken self }
    {
        match self {
            Ground::Silent => false,
            Ground::NoCertificate => true,
            Ground::Compared(c) => c.holds(),
            Ground::Either(a, b) => a.holds() || b.holds(),
            Ground::Exactly(c) => c.deciding().holds(),
            Ground::SignedBelow(left, right) => left < right,
        }
    }

    // How many of its conditions are broken.
    #[tactic(auto, using(crate::proofs::Showing::one_most, crate::proofs::Showing::shown_of_one, crate::proofs::Showing::shown_of_two), unfolding(crate::specs::Showing::shown, crate::specs::Showing::conditions, crate::specs::Showing::broken_of))]
    pub fn shown(self) -> u8
        ensures { result ≡ length (shown self) }
    {
        match self {
            Ground::Silent | Ground::NoCertificate => 0,
            Ground::Compared(c) => u8::from(c.holds()),
            Ground::Either(a, b) => u8::from(a.holds()) + u8::from(b.holds()),
            Ground::Exactly(c) => u8::from(c.deciding().holds()),
            Ground::SignedBelow(left, right) => u8::from(left < right),
        }
    }
}
