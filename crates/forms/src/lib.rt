// The head, a condition and a certificate day of an explanation, each in the form that is asked for.
// Relies on the writers of conditions and certificate days, on that of a finding's line and on a finding's explanation.

#![tactic(auto)]

pub mod by_number;
#[cfg(test)]
mod tests;

ghost use Rattle.grounds.specs.Showing.{two_numbers, a_quotient, two_signed};
ghost use Rattle.dates.specs.Side.{side_number};
ghost use Rattle.characters.specs.Writing.{Room, Wrote};
ghost use Rattle.forms.specs.Forms.{Form, Bytes, Text, nearest, head_in, condition_in, day_in};

use crate::by_number::FormByNumber;
use characters::Writer;
use dates::Side;
use explaining::Explanation;
use grounds::comparison::{Comparison, ExactComparison, Way};
use reasons::{bytes, texts};
use text::runs::put_finding;
use wording::Subject;

// How an explanation is handed over: as bytes or as text, each of its parts by a function.
pub trait Form {
    // Its case in the definitions.
    ghost form: { Form };

    // How many conditions and how many certificate days follow, or the finding's line.
    fn put_head(to: &mut Writer<'_>, e: Explanation)
        requires { Room to.old (head_in form e) }
        ensures { Wrote to.old (head_in form e) to.new };

    // A condition of two whole numbers.
    fn put_numbers(to: &mut Writer<'_>, subject: Subject, which: u8, c: Comparison)
        requires { Room to.old (condition_in form subject.rule subject.round (two_numbers which c)) }
        ensures { Wrote to.old (condition_in form subject.rule subject.round (two_numbers which c)) to.new };

    // A condition of a quotient with its remainder.
    fn put_exactly(to: &mut Writer<'_>, subject: Subject, c: ExactComparison)
        requires { Room to.old (condition_in form subject.rule subject.round (a_quotient c)) }
        ensures { Wrote to.old (condition_in form subject.rule subject.round (a_quotient c)) to.new };

    // A condition of two signed numbers, the left one below the right one.
    fn put_below(to: &mut Writer<'_>, subject: Subject, left: i64, right: i64)
        requires { Room to.old (condition_in form subject.rule subject.round (two_signed left right)) }
        ensures { Wrote to.old (condition_in form subject.rule subject.round (two_signed left right)) to.new };

    // A certificate day that is used: the day of the nearest certificate, or that none is so dated.
    fn put_day(to: &mut Writer<'_>, kind: u8, side: Side, day: Option<u16>)
        requires { Room to.old (day_in form kind (side_number side) (nearest day)) }
        ensures { Wrote to.old (day_in form kind (side_number side) (nearest day)) to.new };
}

// Counts and numbers of fixed width.
#[derive(Clone, Copy)]
pub struct Bytes;

#[tactic(auto, using(crate::proofs::Days::as_bytes), unfolding(crate::specs::Forms::head_in, crate::specs::Forms::condition_in, crate::specs::Forms::day_in, reasons::specs::Bytes::condition_bytes))]
impl FormByNumber for Bytes {
    ghost form = { Bytes };

    fn put_head(to: &mut Writer<'_>, e: Explanation) {
        bytes::put_pair(to, e.basis.shown(), e.days.entries());
    }

    fn put_numbers(to: &mut Writer<'_>, _subject: Subject, which: u8, c: Comparison) {
        bytes::put_condition(to, which, c.way, c.left, c.right, 0, 0);
    }

    fn put_exactly(to: &mut Writer<'_>, _subject: Subject, c: ExactComparison) {
        bytes::put_condition(to, 1, c.way, c.quotient, c.limit, c.remainder, 0);
    }

    fn put_below(to: &mut Writer<'_>, _subject: Subject, left: i64, right: i64) {
        let (left, right) = (left.cast_unsigned(), right.cast_unsigned());
        bytes::put_condition(to, 1, Way::Below, left, right, 0, 0);
    }

    fn put_day(to: &mut Writer<'_>, kind: u8, side: u8, day: Option<u16>) {
        match day {
            Some(day) => bytes::put_day(to, kind, side, 1, day),
            None => bytes::put_day(to, kind, side, 0, 0),
        }
    }
}

// Lines of words.
#[derive(Clone, Copy)]
pub struct Text;

#[tactic(auto, using(crate::proofs::Days::as_text), unfolding(crate::specs::Forms::head_in, crate::specs::Forms::condition_in, crate::specs::Forms::day_in))]
impl FormByNumber for Text {
    ghost form = { Text };

    fn put_head(to: &mut Writer<'_>, e: Explanation) {
        put_finding(to, e.finding);
    }

    fn put_numbers(to: &mut Writer<'_>, subject: Subject, which: u8, c: Comparison) {
        texts::put_numbers(to, subject, which, c);
    }

    fn put_exactly(to: &mut Writer<'_>, subject: Subject, c: ExactComparison) {
        texts::put_exactly(to, subject, c);
    }

    fn put_below(to: &mut Writer<'_>, subject: Subject, left: i64, right: i64) {
        texts::put_below(to, subject, left, right);
    }

    fn put_day(to: &mut Writer<'_>, kind: u8, side: u8, day: Option<u16>) {
        texts::put_day(to, kind, side, day);
    }
}
