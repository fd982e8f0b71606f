// Rules 17 to 20: the weighings and what they catch.

ghost use Rattle.std.specs.Prelude.{◌≡◌};
ghost use Rattle.std.proofs.Math.IntN.{sub_ℕ};
ghost use Rattle.conditions.specs.Conditions.{steady_limit, unsteady, lacking, negative};

use crate::Part;
use grounds::Ground;
use grounds::comparison::{Comparison, Way};

// How far two final weights may differ whatever the net is, 0.1 mg.
const GREATEST_DIFFERENCE: u64 = 5;

// What a difference is taken times to be set against the net, of which it may be 1 percent.
const HUNDREDFOLD: u64 = 100;

// The larger of 500 and the net. A net that is negative counts as 0, which is less than 500.
#[tactic(auto, using(crate::proofs::Net::limit_of_net))]
fn steady_limit(second: u64, tare: u64) -> u64
    ensures { result ≡ steady_limit (sub_ℕ second tare) }
{
    (HUNDREDFOLD * GREATEST_DIFFERENCE).max(second.saturating_sub(tare))
}

// Rule 17: a weighing whose two final weights differ by more than 0.5 mg and by more than 1 percent of the net. Both are
// one comparison.
#[tactic(auto, using(crate::proofs::Parts::no_weighing_lem), unfolding(crate::specs::Conditions::unsteady, grounds::specs::Comparing::apart))]
pub fn unsteady(part: Part) -> Ground
    ensures { result ≡ unsteady part }
{
    let Part::OneWeighing(weighing) = part else {
        return Ground::Silent;
    };
    Ground::Compared(Comparison {
        left: HUNDREDFOLD * (weighing.first as u64).abs_diff(weighing.second as u64),
        way: Way::Above,
        right: steady_limit(weighing.second as u64, weighing.tare as u64),
    })
}

// Rules 18 and 19: none of a kind, where that many were weighed.
pub fn lacking(weighed: u64) -> Ground
    ensures { result ≡ lacking weighed }
{
    Ground::Compared(Comparison {
        left: weighed,
        way: Way::Below,
        right: 1,
    })
}

// Rule 20: line 19 is negative.
pub fn negative(catch: i64) -> Ground
    ensures { result ≡ negative catch }
{
    Ground::SignedBelow(catch, 0)
}
