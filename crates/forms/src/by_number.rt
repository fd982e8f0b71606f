// A form that writes a certificate day on the side of any number, and each such form as a `Form`.

ghost use Rattle.grounds.specs.Showing.{two_numbers, a_quotient, two_signed};
ghost use Rattle.characters.specs.Writing.{Room, Wrote};
ghost use Rattle.forms.specs.Forms.{Form, nearest, head_in, condition_in, day_in};

use crate::Form;
use characters::Writer;
use dates::Side;
use explaining::Explanation;
use grounds::comparison::{Comparison, ExactComparison};
use wording::Subject;

// How an explanation is handed over, each of its parts by a function, a certificate day by the number of its side.
pub trait FormByNumber {
    // Its case in the definitions.
    ghost form: { Form };

    // How many conditions and how many certificate days follow, or the finding's line.
    fn put_head(to: &mut Writer<'_>, e: Explanation)
        requires { Room to.old (head_in form e) }
        ensures { Wrote to.old (head_in form e) to.new };

    // A condition of two whole numbers.
    fn put_numbers(to: &mut Writer<'_>, subject: Subject, which: u8, c: Comparison)
        requires { Room to.old (condition_in form subject.rule subject.round (two_numbers which c)) }
        ensures { Wrote to.old (condition_in form subject.rule subject.round (two_numbers which c)) to.new };

    // A condition of a quotient with its remainder.
    fn put_exactly(to: &mut Writer<'_>, subject: Subject, c: ExactComparison)
        requires { Room to.old (condition_in form subject.rule subject.round (a_quotient c)) }
        ensures { Wrote to.old (condition_in form subject.rule subject.round (a_quotient c)) to.new };

    // A condition of two signed numbers, the left one below the right one.
    fn put_below(to: &mut Writer<'_>, subject: Subject, left: i64, right: i64)
        requires { Room to.old (condition_in form subject.rule subject.round (two_signed left right)) }
        ensures { Wrote to.old (condition_in form subject.rule subject.round (two_signed left right)) to.new };

    // A certificate day that is used: the day of the nearest certificate, or that none is so dated.
    fn put_day(to: &mut Writer<'_>, kind: u8, side: u8, day: Option<u16>)
        requires { Room to.old (day_in form kind side (nearest day)) }
        ensures { Wrote to.old (day_in form kind side (nearest day)) to.new };
}

// What is written on a side is what is written on the side of its number.
impl<F: FormByNumber> Form for F {
    ghost form = { F.form };

    fn put_head(to: &mut Writer<'_>, e: Explanation) {
        <F as FormByNumber>::put_head(to, e);
    }

    fn put_numbers(to: &mut Writer<'_>, subject: Subject, which: u8, c: Comparison) {
        <F as FormByNumber>::put_numbers(to, subject, which, c);
    }

    fn put_exactly(to: &mut Writer<'_>, subject: Subject, c: ExactComparison) {
        <F as FormByNumber>::put_exactly(to, subject, c);
    }

    fn put_below(to: &mut Writer<'_>, subject: Subject, left: i64, right: i64) {
        <F as FormByNumber>::put_below(to, subject, left, right);
    }

    // Laid into its caller, so that a side costs nothing beside its number.
    #[inline(always)]
    fn put_day(to: &mut Writer<'_>, kind: u8, side: Side, day: Option<u16>) {
        <F as FormByNumber>::put_day(to, kind, side.number(), day);
    }
}
