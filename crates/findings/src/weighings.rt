// How many of a run's weighings are of a kind.

ghost use Rattle.std.specs.Prelude.{◌≡◌, length};
ghost use Rattle.findings.specs.Listing.{of_kind};

use records::Weighing;

// How many weighings are of that kind.
#[tactic(auto, using(crate::proofs::Counted::kind_counted))]
pub fn of_kind(kind: u8, weighings: &[Weighing]) -> u64
    ensures { result ≡ of_kind kind weighings.now (length weighings.now) }
{
    weighings.iter().filter(|w| w.kind == kind).count() as u64
}
