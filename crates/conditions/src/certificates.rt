// Rules 1 to 6: the certificates.

ghost use Rattle.std.specs.Prelude.{◌≡◌};
ghost use Rattle.conditions.specs.Conditions.{missing, moved, spread, uneven};

use grounds::Ground;
use grounds::comparison::{Comparison, Way};
use records::Certificate;

// How far a nozzle's highest and lowest diameter may differ, 0.001 in.
const GREATEST_SPREAD: u64 = 4;

// Rules 1 to 4: no certificate so dated.
#[tactic(auto, unfolding(crate::specs::Conditions::missing))]
pub fn missing(found: Option<Certificate>) -> Ground
    ensures { result ≡ missing found }
{
    match found {
        Some(_) => Ground::Silent,
        None => Ground::NoCertificate,
    }
}

// Rule 5: the factor moved, where both certificates are there.
#[tactic(auto, unfolding(crate::specs::Conditions::moved))]
pub fn moved(before: Option<Certificate>, after: Option<Certificate>) -> Ground
    ensures { result ≡ moved before after }
{
    let Some(b) = before else {
        return Ground::Silent;
    };
    let Some(a) = after else {
        return Ground::Silent;
    };
    Ground::Compared(factors::factor_moved(b.first, a.first))
}

// The highest of three diameters less the lowest.
fn spread(a: u64, b: u64, c: u64) -> u64
    ensures { result ≡ spread a b c }
{
    a.max(b).max(c) - a.min(b).min(c)
}

// Rule 6: the nozzle's highest and lowest diameter differ by too much.
#[tactic(auto, unfolding(crate::specs::Conditions::uneven))]
pub fn uneven(nozzle: Option<Certificate>) -> Ground
    ensures { result ≡ uneven nozzle }
{
    let Some(n) = nozzle else {
        return Ground::Silent;
    };
    Ground::Compared(Comparison {
        left: spread(n.first as u64, n.second as u64, n.third as u64),
        way: Way::Above,
        right: GREATEST_SPREAD,
    })
}
