// What each rule is about, by its number: of what places it speaks, and the class of its findings by the job's version.

#![tactic(auto)]

ghost use Rattle.std.specs.Prelude.{◌≡◌};
ghost use Rattle.classes.specs.Classes.{places_of, place_at, class_number, class_of};

use readings::headers::Version;
use records::Counts;

// The class of a finding: a fault voids its run, and a note does not.
#[derive(Clone, Copy, PartialEq, Eq)]
pub enum Class {
    Fault,
    Note,
}

impl Class {
    pub fn number(self) -> u8
        ensures { result ≡ class_number self }
    {
        match self {
            Class::Fault => 1,
            Class::Note => 2,
        }
    }
}

// Of how many places a rule speaks: points, segments or weighings, and otherwise the whole run.
#[tactic(auto, unfolding(crate::specs::Classes::places_of))]
pub fn places(counts: Counts, rule: u8) -> u8
    ensures { result ≡ places_of counts rule }
{
    match rule {
        10 => counts.points,
        11 => counts.segments,
        17 => counts.weighings,
        _ => 1,
    }
}

// The place of a finding: points, segments and weighings from 1, and 0 for the whole run.
#[tactic(auto, unfolding(crate::specs::Classes::place_at))]
pub fn place(rule: u8, i: u8) -> u16
    ensures { result ≡ place_at rule i }
{
    match rule {
        10 | 11 | 17 => i as u16 + 1,
        _ => 0,
    }
}

// A finding's class: 11 is a note, 5 in version 1 alone, and the rest are faults.
#[tactic(auto, unfolding(crate::specs::Classes::class_of))]
pub fn class_of(v: Version, rule: u8) -> Class
    ensures { result ≡ class_of v rule }
{
    match rule {
        5 => match v {
            Version::One => Class::Note,
            Version::Two => Class::Fault,
        },
        11 => Class::Note,
        _ => Class::Fault,
    }
}
