// What each condition of a rule compares, in words for a reviewer. Relies on the writers of `characters`.

#![tactic(auto)]

ghost use Rattle.std.specs.Prelude.{cond};
ghost use Rattle.characters.specs.Writing.{Room, Wrote};
ghost use Rattle.wording.specs.Wording.{words_of};

use characters::Writer;

// What a condition speaks of: its rule, and whether the stack is round.
#[derive(Clone, Copy)]
pub struct Subject {
    pub rule: u8,
    pub round: bool,
}

// Of two texts the first where the stack is round, the second where it is rectangular.
fn put_by_shape(to: &mut Writer<'_>, round: bool, in_round: &[u8], in_rectangular: &[u8])
    requires { Room to.old (cond round in_round.now in_rectangular.now) }
    ensures { Wrote to.old (cond round in_round.now in_rectangular.now) to.new }
{
    if round {
        to.word(in_round);
    } else {
        to.word(in_rectangular);
    }
}

// Rule 8's: the distance to the next disturbance, or from the last one.
fn put_distance(to: &mut Writer<'_>, which: u8, round: bool)
    requires { Room to.old (words_of 8 which round) }
    ensures { Wrote to.old (words_of 8 which round) to.new }
{
    if which == 1 {
        put_by_shape(
            to,
            round,
            b"2 x the distance to the next disturbance; the diameter of the stack (0.1 in)",
            b"the distance to the next disturbance x the sum of both sides; first side x second side (distance and sides in 0.1 in)",
        );
    } else {
        put_by_shape(
            to,
            round,
            b"the distance from the last disturbance; 2 x the diameter of the stack (0.1 in)",
            b"the distance from the last disturbance x the sum of both sides; 4 x first side x second side (distance and sides in 0.1 in)",
        );
    }
}

// Rule 9's: the least number of points, or the next one allowed.
fn put_points(to: &mut Writer<'_>, which: u8, round: bool)
    requires { Room to.old (words_of 9 which round) }
    ensures { Wrote to.old (words_of 9 which round) to.new }
{
    if which == 1 {
        put_by_shape(
            to,
            round,
            b"points; the least number of points in a round stack with these disturbances",
            b"points; the least number of points in a rectangular stack with these disturbances",
        );
    } else {
        put_by_shape(
            to,
            round,
            b"points; the next number of points allowed in a round stack, a multiple of 4",
            b"points; the next number of points allowed in a rectangular stack, or 49, the highest",
        );
    }
}

// What the left number and the right one are, of a rule's first condition or its second, in a round stack or a rectangular one.
pub fn put_words(to: &mut Writer<'_>, subject: Subject, which: u8)
    requires { Room to.old (words_of subject.rule which subject.round) }
    ensures { Wrote to.old (words_of subject.rule which subject.round) to.new }
{
    let round = subject.round;
    match subject.rule {
        5 => to.word(
            b"20 x the difference of the meter's factors; its factor before the run (factors in 0.0001)",
        ),
        6 => to.word(
            b"the nozzle's highest less its lowest diameter; the most that they may differ (0.001 in)",
        ),
        7 => put_by_shape(
            to,
            round,
            b"the diameter of the stack; the least diameter (0.1 in)",
            b"2 x first side x second side; 120 x the sum of both sides (sides in 0.1 in)",
        ),
        8 => put_distance(to, which, round),
        9 => put_points(to, which, round),
        10 => to.word(b"time at the point; the least time (seconds)"),
        11 => to.word(
            b"5 x time x leak; the smaller of 100 x time and 12 x volume (time in seconds, leak in 0.001 cfm, volume in 0.001 ft3)",
        ),
        12 => to.word(b"line 3, the corrected volume; no volume (0.001 ft3)"),
        14 => to.word(b"line 15, the velocity; no velocity (0.001 ft/s)"),
        15 => to.word(b"percent isokinetic before rounding; its lower limit (0.01 percent)"),
        16 => to.word(b"percent isokinetic before rounding; its upper limit (0.01 percent)"),
        17 => to.word(
            b"100 x the difference of the final weights; the larger of 500 and the net weight (0.1 mg)",
        ),
        18 => to.word(b"filters weighed; the least number of filters"),
        19 => to.word(b"rinses weighed; the least number of rinses"),
        20 => to.word(b"line 19, the catch; the least catch (0.1 mg)"),
        _ => {}
    }
}
