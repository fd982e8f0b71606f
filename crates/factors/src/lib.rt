// What the chosen certificates give the lines: the factor Y, the coefficient Cp and the nozzle's diameters.

#![tactic(auto)]

ghost use Rattle.std.specs.Prelude.{◌≡◌};
ghost use Rattle.factors.specs.Factor.{factor_moved, lower_if_moved, factor, factor_of, coefficient_of, diameters_of};

use choosing::Chosen;
use grounds::comparison::{Comparison, Way};
use readings::headers::Version;
use values::Diameters;

// 5 percent of the before factor: a difference is more where as many times it is more than the factor.
const PARTS: u64 = 20;

// Whether the after factor differs from the before factor by more than 5 percent of the before factor.
#[tactic(auto, unfolding(crate::specs::Factor::factor_moved, grounds::specs::Comparing::apart))]
pub fn factor_moved(before: u16, after: u16) -> Comparison
    ensures { result ≡ factor_moved before after }
{
    Comparison {
        left: PARTS * (before as u64).abs_diff(after as u64),
        way: Way::Above,
        right: before as u64,
    }
}

// The lower of the two where the factor moved, otherwise the before factor.
#[tactic(auto, unfolding(crate::specs::Factor::lower_if_moved))]
fn lower_if_moved(before: u16, after: u16) -> u16
    ensures { result ≡ lower_if_moved before after }
{
    if factor_moved(before, after).holds() {
        before.min(after)
    } else {
        before
    }
}

// Y from a before factor and an after factor, by the job's version: in version 2 always the before factor.
#[tactic(auto, unfolding(crate::specs::Factor::factor))]
pub fn factor(v: Version, before: u16, after: u16) -> u16
    ensures { result ≡ factor v before after }
{
    match v {
        Version::One => lower_if_moved(before, after),
        Version::Two => before,
    }
}

// The factor Y: missing without a before certificate, and the before factor without an after one.
#[tactic(auto, unfolding(crate::specs::Factor::factor_of))]
pub fn factor_of(v: Version, chosen: Chosen) -> Option<u64>
    ensures { result ≡ factor_of v chosen }
{
    let b = chosen.before?;
    let Some(a) = chosen.after else {
        return Some(b.first as u64);
    };
    Some(factor(v, b.first, a.first) as u64)
}

// Cp of the pitot tube's certificate.
#[tactic(auto, unfolding(crate::specs::Factor::coefficient_of))]
pub fn coefficient_of(chosen: Chosen) -> Option<u64>
    ensures { result ≡ coefficient_of chosen }
{
    Some(chosen.pitot?.first as u64)
}

// The three diameters of the nozzle's certificate.
#[tactic(auto, unfolding(crate::specs::Factor::diameters_of))]
pub fn diameters_of(chosen: Chosen) -> Option<Diameters>
    ensures { result ≡ diameters_of chosen }
{
    let n = chosen.nozzle?;
    Some(Diameters {
        first: n.first as u64,
        second: n.second as u64,
        third: n.third as u64,
    })
}
