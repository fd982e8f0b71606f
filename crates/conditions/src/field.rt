// Rules 10 and 11: points and segments.

ghost use Rattle.std.specs.Prelude.{◌≡◌};
ghost use Rattle.conditions.specs.Conditions.{short, leaking};

use crate::Part;
use grounds::Ground;
use grounds::comparison::{Comparison, Way};
use metering::SamplingRate;

// The least time at a point, seconds.
const LEAST_TIME_AT_POINT: u64 = 120;

// Rule 10: a point under 120 seconds.
#[tactic(auto, using(crate::proofs::Parts::no_point_lem), unfolding(crate::specs::Conditions::short))]
pub fn short(part: Part) -> Ground
    ensures { result ≡ short part }
{
    let Part::OnePoint(point) = part else {
        return Ground::Silent;
    };
    Ground::Compared(Comparison {
        left: point.seconds as u64,
        way: Way::Below,
        right: LEAST_TIME_AT_POINT,
    })
}

// Rule 11: a segment's leak above the allowance, at a run's sampling rate.
#[tactic(auto, using(crate::proofs::Parts::no_segment_lem), unfolding(crate::specs::Conditions::leaking))]
pub fn leaking(rate: SamplingRate, part: Part) -> Ground
    ensures { result ≡ leaking rate.time rate.volume part }
{
    let Part::OneSegment(segment) = part else {
        return Ground::Silent;
    };
    Ground::Compared(Comparison {
        left: 5 * rate.time * segment.leak as u64,
        way: Way::Above,
        right: rate.allowance(),
    })
}
