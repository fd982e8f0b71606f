// Which of two certificates a run is worked with: by kind, maker, serial and letter, the latest dated on or before the run's day, or the
// earliest dated later. Relies on the records and their comparison; where the certificates come from does not matter here.

#![tactic(auto)]

ghost use Rattle.std.specs.Prelude.{◌≡◌, true, false};
ghost use Rattle.choosing.specs.Choosing.{so_dated, nearer, eligible, replaces};

use records::{Certificate, Identity};

// The certificates that a run is worked with: of its meter before and after, of its pitot tube and of its nozzle before.
#[derive(Clone, Copy)]
pub struct Chosen {
    pub before: Option<Certificate>,
    pub after: Option<Certificate>,
    pub pitot: Option<Certificate>,
    pub nozzle: Option<Certificate>,
}

// The certificate that is asked for: its kind, maker, serial and letter, and on which side of the run's day it is dated.
#[derive(Clone, Copy)]
pub struct Wanted {
    pub kind: u8,
    pub identity: Identity,
    pub day: u16,
    pub after: bool,
}

impl Wanted {
    // The certificate of that kind, maker, serial and letter that is dated on the day or before it.
    pub fn before(kind: u8, identity: Identity, day: u16) -> Wanted
        ensures { result ≡ record { kind = kind; identity = identity; day = day; after = false } }
    {
        Wanted {
            kind,
            identity,
            day,
            after: false,
        }
    }

    // The same, dated later.
    pub fn later(self) -> Wanted
        ensures { result ≡ record self { after = true } }
    {
        Wanted {
            after: true,
            ..self
        }
    }

    // Whether a day is on the asked side of the run's day. The run's own day counts as before.
    fn is_so_dated(self, dated: u16) -> bool
        ensures { result ≡ so_dated self.after self.day dated }
    {
        if self.after {
            self.day < dated
        } else {
            dated <= self.day
        }
    }

    // Whether of two days on the asked side the second is nearer the run.
    fn is_nearer(self, first: u16, second: u16) -> bool
        ensures { result ≡ nearer self.after first second }
    {
        if self.after {
            second < first
        } else {
            first < second
        }
    }

    // Whether a certificate is of the asked kind, maker, serial and letter, and so dated.
    #[tactic(auto, unfolding(crate::specs::Choosing::eligible, records::specs::Records::same_identity))]
    fn is_met_by(self, c: Certificate) -> bool
        ensures { result ≡ eligible self.after self.kind self.identity self.day c }
    {
        c.kind == self.kind && c.identity == self.identity && self.is_so_dated(c.day)
    }

    // Whether a certificate takes the place of the best so far, which is dated `nearest` where there is one.
    pub fn replaces(self, c: Certificate, nearest: Option<u16>) -> bool
        ensures { result ≡ replaces self.after self.kind self.identity self.day nearest c }
    {
        self.is_met_by(c) && nearest.is_none_or(|day| self.is_nearer(day, c.day))
    }
}
