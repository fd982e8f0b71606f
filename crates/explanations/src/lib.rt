// An explanation written, as bytes or as text: its head, its broken conditions, its certificate days.
// Relies on how each of them is written in a form, and on a finding's explanation.

#![tactic(auto)]

ghost use Rattle.std.specs.Prelude.{[], ◌∷◌};
ghost use Rattle.grounds.specs.Comparing.{holds};
ghost use Rattle.grounds.specs.Showing.{two_numbers, broken_of, ◌broken_if◌, shown};
ghost use Rattle.characters.specs.Writing.{Room, Wrote, RoomFor, WroteFront};
ghost use Rattle.dates.specs.Side.{side_number};
ghost use Rattle.forms.specs.Forms.{day_in};
ghost use Rattle.explanations.specs.Written.{conditions_in, sides_in, days_in, written};

use characters::Writer;
use dates::{Day, Days, Side, Sides};
use explaining::Explanation;
use forms::Form;
use grounds::Ground;
use grounds::comparison::Comparison;
use readings::certificates::CertificateKind;
use wording::Subject;

// A condition of two whole numbers, where it is broken.
#[tactic(auto, using(crate::proofs::Shown::by_breach, characters::proofs::Texts::wrote_none))]
fn put_if_broken<F: Form>(to: &mut Writer<'_>, subject: Subject, which: u8, c: Comparison)
    requires { Room to.old (conditions_in F.form subject.rule subject.round (broken_of ((two_numbers which c broken_if holds c) ∷ []))) }
    ensures { Wrote to.old (conditions_in F.form subject.rule subject.round (broken_of ((two_numbers which c broken_if holds c) ∷ []))) to.new }
{
    if c.holds() {
        F::put_numbers(to, subject, which, c);
    }
}

// The broken conditions of a ground.
#[tactic(auto, using(crate::proofs::Shown::by_ground, characters::proofs::Texts::wrote_none))]
fn put_ground<F: Form>(to: &mut Writer<'_>, subject: Subject, ground: Ground)
    requires { Room to.old (conditions_in F.form subject.rule subject.round (shown ground)) }
    ensures { Wrote to.old (conditions_in F.form subject.rule subject.round (shown ground)) to.new }
{
    match ground {
        Ground::Silent | Ground::NoCertificate => {}
        Ground::Compared(c) => put_if_broken::<F>(to, subject, 1, c),
        Ground::Either(a, b) => {
            put_if_broken::<F>(to, subject, 1, a);
            put_if_broken::<F>(to, subject, 2, b);
        }
        Ground::Exactly(c) => {
            if c.deciding().holds() {
                F::put_exactly(to, subject, c);
            }
        }
        Ground::SignedBelow(left, right) => {
            if left < right {
                F::put_below(to, subject, left, right);
            }
        }
    }
}

// A certificate day, where one is used.
#[tactic(auto, using(forms::proofs::Days::unused, characters::proofs::Texts::wrote_none))]
fn put_day<F: Form>(to: &mut Writer<'_>, kind: u8, side: Side, day: Day)
    requires { Room to.old (day_in F.form kind (side_number side) day) }
    ensures { Wrote to.old (day_in F.form kind (side_number side) day) to.new }
{
    match day {
        Day::Unused => {}
        Day::On(dated) => F::put_day(to, kind, side, Some(dated)),
        Day::NoneSoDated => F::put_day(to, kind, side, None),
    }
}

// The days of a kind.
#[tactic(auto, unfolding(crate::specs::Written::sides_in))]
fn put_sides<F: Form>(to: &mut Writer<'_>, kind: u8, sides: Sides)
    requires { Room to.old (sides_in F.form kind sides) }
    ensures { Wrote to.old (sides_in F.form kind sides) to.new }
{
    put_day::<F>(to, kind, Side::Before, sides.before);
    put_day::<F>(to, kind, Side::After, sides.after);
}

// The days of all kinds.
#[tactic(auto, unfolding(crate::specs::Written::days_in))]
fn put_days<F: Form>(to: &mut Writer<'_>, days: Days)
    requires { Room to.old (days_in F.form days) }
    ensures { Wrote to.old (days_in F.form days) to.new }
{
    put_sides::<F>(to, CertificateKind::METER, days.meter);
    put_sides::<F>(to, CertificateKind::PITOT, days.pitot);
    put_sides::<F>(to, CertificateKind::NOZZLE, days.nozzle);
}

// An explanation from the front of a buffer; its length.
#[tactic(auto, unfolding(crate::specs::Written::written))]
pub fn put_explanation<F: Form>(out: &mut [u8], e: Explanation) -> usize
    requires { RoomFor out.old (written F.form e) }
    ensures { WroteFront out.old (written F.form e) out.new result }
{
    let mut to = Writer { out, at: 0 };
    F::put_head(&mut to, e);
    let subject = Subject {
        rule: e.finding.rule,
        round: e.round,
    };
    put_ground::<F>(&mut to, subject, e.basis);
    put_days::<F>(&mut to, e.days);
    to.at
}
