// A run's certificates, chosen from those of a job file, each read at its place. Everything above reaches a job's certificates only
// through `choose`. Relies on the choice between two, and on where certificates stand.

#![tactic(auto)]

ghost use Rattle.std.specs.Prelude.{◌≡◌};
ghost use Rattle.heads.specs.Values.{certificate_of};
ghost use Rattle.choosing.specs.Choosing.{chosen, chosen_for};

use choosing::{Chosen, Wanted};
use heads::certificate::Certificates;
use readings::certificates::CertificateKind;
use records::{Certificate, RunHeader};

// Of the certificates of a file, the one wanted that is dated nearest the day.
pub fn choose(all: Certificates<'_>, wanted: Wanted) -> Option<Certificate>
    ensures { result ≡ chosen wanted.after wanted.kind wanted.identity wanted.day (certificate_of all.entry.file.bytes.now) all.entry.count }
{
    let mut best: Option<Certificate> = None;
    for i in 0..all.count {
        let c = all.nth(i);
        if wanted.replaces(c, best.map(|b| b.day)) {
            best = Some(c);
        }
    }
    best
}

// The certificates of a run among those of a file, each found through `choose`.
#[tactic(auto, unfolding(choosing::specs::Choosing::chosen_for))]
pub fn choose_all(all: Certificates<'_>, header: RunHeader) -> Chosen
    ensures { result ≡ chosen_for (certificate_of all.entry.file.bytes.now) all.entry.count header }
{
    let meter = Wanted::before(CertificateKind::METER, header.meter, header.day);
    let pitot = Wanted::before(CertificateKind::PITOT, header.pitot, header.day);
    let nozzle = Wanted::before(CertificateKind::NOZZLE, header.nozzle, header.day);
    Chosen {
        before: choose(all, meter),
        after: choose(all, meter.later()),
        pitot: choose(all, pitot),
        nozzle: choose(all, nozzle),
    }
}
