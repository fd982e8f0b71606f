// The certificate days behind a finding: on which sides of the run's day its rule uses certificates, and the nearest day there.
// Relies on the choice of a certificate on either side.

#![tactic(auto)]

ghost use Rattle.std.specs.Prelude.{◌≡◌, true};
ghost use Rattle.heads.specs.Values.{certificate_of};
ghost use Rattle.choosing.specs.Choosing.{chosen};
ghost use Rattle.dates.specs.Side.{side_number};
ghost use Rattle.dates.specs.Dates.{worked_use, meter_use, pitot_use, nozzle_use, day_of, sides_of, days_of, entries_on, entries_of, entries};

use certs::choose;
use choosing::Wanted;
use heads::certificate::Certificates;
use readings::certificates::CertificateKind;
use readings::headers::Version;
use records::RunHeader;

// The sides of the run's day: on it or before it, and later.
#[derive(Clone, Copy)]
pub enum Side {
    Before,
    After,
}

// On which sides of the run's day a rule uses certificates of a kind.
#[derive(Clone, Copy)]
pub enum Use {
    Neither,
    Before,
    Both,
}

// The day of the nearest certificate on one side: none is used, its day, or none is so dated.
#[derive(Clone, Copy)]
pub enum Day {
    Unused,
    On(u16),
    NoneSoDated,
}

// On or before the run's day, and later.
#[derive(Clone, Copy)]
pub struct Sides {
    pub before: Day,
    pub after: Day,
}

// The days of each kind.
#[derive(Clone, Copy)]
pub struct Days {
    pub meter: Sides,
    pub pitot: Sides,
    pub nozzle: Sides,
}

impl Side {
    pub fn number(self) -> u8
        ensures { result ≡ side_number self }
    {
        match self {
            Side::Before => 1,
            Side::After => 2,
        }
    }
}

impl Day {
    // 1 for a side that is used, and 0 for one that is not.
    #[tactic(auto, unfolding(crate::specs::Dates::entries_on))]
    fn entries(self) -> u8
        ensures { result ≡ entries_on self }
    {
        match self {
            Day::Unused => 0,
            Day::On(_) | Day::NoneSoDated => 1,
        }
    }
}

impl Sides {
    #[tactic(auto, using(crate::proofs::Entries::one_a_side), unfolding(crate::specs::Dates::entries_of))]
    fn entries(self) -> u8
        ensures { result ≡ entries_of self }
    {
        self.before.entries() + self.after.entries()
    }
}

impl Days {
    // How many sides are used, of all kinds.
    #[tactic(auto, using(crate::proofs::Entries::two_a_kind), unfolding(crate::specs::Dates::entries))]
    pub fn entries(self) -> u8
        ensures { result ≡ entries self }
    {
        self.meter.entries() + self.pitot.entries() + self.nozzle.entries()
    }
}

// The meter's, for a line that is worked with Y: in version 1 the later factor counts too.
#[tactic(auto, unfolding(crate::specs::Dates::worked_use))]
fn worked_use(v: Version) -> Use
    ensures { result ≡ worked_use v }
{
    match v {
        Version::One => Use::Both,
        Version::Two => Use::Before,
    }
}

// The meter's, by the rule.
#[tactic(auto, unfolding(crate::specs::Dates::meter_use))]
fn meter_use(v: Version, rule: u8) -> Use
    ensures { result ≡ meter_use v rule }
{
    match rule {
        1 | 4 | 5 => Use::Both,
        14 | 15 | 16 => worked_use(v),
        _ => Use::Neither,
    }
}

// The pitot tube's.
#[tactic(auto, unfolding(crate::specs::Dates::pitot_use))]
fn pitot_use(rule: u8) -> Use
    ensures { result ≡ pitot_use rule }
{
    match rule {
        2 => Use::Both,
        14 | 15 | 16 => Use::Before,
        _ => Use::Neither,
    }
}

// The nozzle's.
#[tactic(auto, unfolding(crate::specs::Dates::nozzle_use))]
fn nozzle_use(rule: u8) -> Use
    ensures { result ≡ nozzle_use rule }
{
    match rule {
        3 => Use::Both,
        6 | 15 | 16 => Use::Before,
        _ => Use::Neither,
    }
}

// The day of the certificate that is wanted, among those of a file.
#[tactic(auto, unfolding(crate::specs::Dates::day_of))]
fn day_on(all: Certificates<'_>, wanted: Wanted) -> Day
    ensures { result ≡ day_of (chosen wanted.after wanted.kind wanted.identity wanted.day (certificate_of all.entry.file.bytes.now) all.entry.count) }
{
    let Some(c) = choose(all, wanted) else {
        return Day::NoneSoDated;
    };
    Day::On(c.day)
}

// The days of a kind, of which the certificate before is given. A certificate is looked for only where it is used.
#[tactic(auto, unfolding(crate::specs::Dates::sides_of))]
fn sides_of(all: Certificates<'_>, before: Wanted, used: Use) -> Sides
    ensures { result ≡ sides_of used (chosen before.after before.kind before.identity before.day (certificate_of all.entry.file.bytes.now) all.entry.count) (chosen true before.kind before.identity before.day (certificate_of all.entry.file.bytes.now) all.entry.count) }
{
    match used {
        Use::Neither => Sides {
            before: Day::Unused,
            after: Day::Unused,
        },
        Use::Before => Sides {
            before: day_on(all, before),
            after: Day::Unused,
        },
        Use::Both => Sides {
            before: day_on(all, before),
            after: day_on(all, before.later()),
        },
    }
}

// The days that a rule uses, of a run and the certificates of a file.
// Laid into its caller, which is laid into the calls of both forms of an explanation.
#[inline(always)]
#[tactic(auto, unfolding(crate::specs::Dates::days_of))]
pub fn days_of(all: Certificates<'_>, header: RunHeader, rule: u8) -> Days
    ensures { result ≡ days_of all.entry.file.version (certificate_of all.entry.file.bytes.now) all.entry.count header rule }
{
    let meter = Wanted::before(CertificateKind::METER, header.meter, header.day);
    let pitot = Wanted::before(CertificateKind::PITOT, header.pitot, header.day);
    let nozzle = Wanted::before(CertificateKind::NOZZLE, header.nozzle, header.day);
    Days {
        meter: sides_of(all, meter, meter_use(all.file.version, rule)),
        pitot: sides_of(all, pitot, pitot_use(rule)),
        nozzle: sides_of(all, nozzle, nozzle_use(rule)),
    }
}
