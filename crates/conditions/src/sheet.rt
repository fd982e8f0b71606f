// Rules 12, 14, 15 and 16: lines 3 and 15, and line 18 before it is rounded, each against its limit.

ghost use Rattle.std.specs.Prelude.{◌≡◌};
ghost use Rattle.conditions.specs.Conditions.{line_against, ratio_against};

use arith::Division;
use grounds::Ground;
use grounds::comparison::{Comparison, ExactComparison, Way};

// The least and the greatest percent isokinetic, 0.01 percent.
pub struct Isokinetic;

impl Isokinetic {
    pub const LEAST: u64 = 9_000;

    pub const GREATEST: u64 = 11_000;
}

// A line against its limit, where the line is present.
#[tactic(auto, unfolding(crate::specs::Conditions::line_against))]
pub fn line_against(line: Option<u64>, way: Way, limit: u64) -> Ground
    ensures { result ≡ line_against line way limit }
{
    let Some(n) = line else {
        return Ground::Silent;
    };
    Ground::Compared(Comparison {
        left: n,
        way,
        right: limit,
    })
}

// A line before it is rounded against its limit, where the line is present.
#[tactic(auto, unfolding(crate::specs::Conditions::ratio_against))]
pub fn ratio_against(line: Option<Division>, way: Way, limit: u64) -> Ground
    ensures { result ≡ ratio_against line way limit }
{
    let Some(division) = line else {
        return Ground::Silent;
    };
    Ground::Exactly(ExactComparison {
        quotient: division.quotient,
        remainder: division.remainder,
        way,
        limit,
    })
}
