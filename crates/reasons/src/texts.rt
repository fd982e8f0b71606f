// A condition and a certificate day as text, a line each.

ghost use Rattle.std.specs.Prelude.{pos, true};
ghost use Rattle.grounds.specs.Showing.{two_numbers, a_quotient, two_signed};
ghost use Rattle.characters.specs.Writing.{Room, Wrote};
ghost use Rattle.reasons.specs.Text.{way_text, number_text, meaning_text, condition_text, kind_text, side_text, found_text, dated_text};

use characters::Writer;
use dates::Side;
use grounds::comparison::{Comparison, ExactComparison, Way};
use readings::certificates::CertificateKind;
use wording::{Subject, put_words};

// A way, as a word between its two numbers.
#[tactic(auto, unfolding(crate::specs::Text::way_text, characters::specs::Words::spelled))]
fn put_way(to: &mut Writer<'_>, way: Way)
    requires { Room to.old (way_text way) }
    ensures { Wrote to.old (way_text way) to.new }
{
    match way {
        Way::Below => to.word(b" BELOW "),
        Way::Above => to.word(b" ABOVE "),
        Way::Same => to.word(b" EQUAL "),
        Way::Differs => to.word(b" DIFFERS "),
    }
}

// A quotient and its remainder, or their limits.
#[tactic(auto, unfolding(crate::specs::Text::number_text, characters::specs::Numbers::signed_decimal, characters::specs::Words::spelled))]
fn put_quotient(to: &mut Writer<'_>, n: u64, remainder: u64)
    requires { Room to.old (number_text true (pos n) (pos remainder)) }
    ensures { Wrote to.old (number_text true (pos n) (pos remainder)) to.new }
{
    to.decimal(n);
    to.word(b" REMAINDER ");
    to.decimal(remainder);
}

// What the two numbers are, and the end of the line.
#[tactic(auto, unfolding(crate::specs::Text::meaning_text, characters::specs::Words::spelled))]
fn put_meaning(to: &mut Writer<'_>, subject: Subject, which: u8)
    requires { Room to.old (meaning_text subject.rule which subject.round) }
    ensures { Wrote to.old (meaning_text subject.rule which subject.round) to.new }
{
    to.word(b"  ");
    put_words(to, subject, which);
    to.word(b"\n");
}

// A condition of two whole numbers.
#[tactic(auto, unfolding(crate::specs::Text::condition_text, crate::specs::Text::number_text, characters::specs::Numbers::signed_decimal, characters::specs::Words::spelled))]
pub fn put_numbers(to: &mut Writer<'_>, subject: Subject, which: u8, c: Comparison)
    requires { Room to.old (condition_text subject.rule subject.round (two_numbers which c)) }
    ensures { Wrote to.old (condition_text subject.rule subject.round (two_numbers which c)) to.new }
{
    to.word(b"  COMPARED ");
    to.decimal(c.left);
    put_way(to, c.way);
    to.decimal(c.right);
    put_meaning(to, subject, which);
}

// A condition of a quotient with its remainder.
#[tactic(auto, unfolding(crate::specs::Text::condition_text, characters::specs::Words::spelled))]
pub fn put_exactly(to: &mut Writer<'_>, subject: Subject, c: ExactComparison)
    requires { Room to.old (condition_text subject.rule subject.round (a_quotient c)) }
    ensures { Wrote to.old (condition_text subject.rule subject.round (a_quotient c)) to.new }
{
    to.word(b"  COMPARED ");
    put_quotient(to, c.quotient, c.remainder);
    put_way(to, c.way);
    put_quotient(to, c.limit, 0);
    put_meaning(to, subject, 1);
}

// A condition of two signed numbers, the left one below the right one.
#[tactic(auto, unfolding(crate::specs::Text::condition_text, crate::specs::Text::number_text, characters::specs::Words::spelled))]
pub fn put_below(to: &mut Writer<'_>, subject: Subject, left: i64, right: i64)
    requires { Room to.old (condition_text subject.rule subject.round (two_signed left right)) }
    ensures { Wrote to.old (condition_text subject.rule subject.round (two_signed left right)) to.new }
{
    to.word(b"  COMPARED ");
    to.signed(left);
    put_way(to, Way::Below);
    to.signed(right);
    put_meaning(to, subject, 1);
}

#[tactic(auto, unfolding(crate::specs::Text::kind_text, characters::specs::Words::spelled))]
fn put_kind(to: &mut Writer<'_>, kind: u8)
    requires { Room to.old (kind_text kind) }
    ensures { Wrote to.old (kind_text kind) to.new }
{
    if kind == CertificateKind::METER {
        to.word(b"METER ");
    } else if kind == CertificateKind::PITOT {
        to.word(b"PITOT ");
    } else {
        to.word(b"NOZZLE ");
    }
}

#[tactic(auto, unfolding(crate::specs::Text::side_text, characters::specs::Words::spelled))]
fn put_side(to: &mut Writer<'_>, side: u8)
    requires { Room to.old (side_text side) }
    ensures { Wrote to.old (side_text side) to.new }
{
    if side == Side::Before.number() {
        to.word(b"BEFORE ");
    } else {
        to.word(b"AFTER ");
    }
}

// The day found, or that there is none.
#[tactic(auto, unfolding(crate::specs::Text::found_text, characters::specs::Words::spelled))]
fn put_found(to: &mut Writer<'_>, day: Option<u16>)
    requires { Room to.old (found_text day) }
    ensures { Wrote to.old (found_text day) to.new }
{
    match day {
        Some(day) => to.decimal(day as u64),
        None => to.word(b"NONE"),
    }
}

// A certificate day: kind, side, and the day or that there is none.
#[tactic(auto, unfolding(crate::specs::Text::dated_text, characters::specs::Words::spelled))]
pub fn put_day(to: &mut Writer<'_>, kind: u8, side: u8, day: Option<u16>)
    requires { Room to.old (dated_text kind side day) }
    ensures { Wrote to.old (dated_text kind side day) to.new }
{
    to.word(b"  CERTIFICATE ");
    put_kind(to, kind);
    put_side(to, side);
    put_found(to, day);
    to.word(b"\n");
}
