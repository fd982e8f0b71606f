// What a job holds, as structs by value, each field as it stands in the file.
// Every field is kept, so that a job can be written back from its records. Relies on the kinds of reading for the ranges.

#![tactic(auto)]

use readings::range::Reading;
use readings::runs::{PointCount, SegmentCount, WeighingCount};

// A maker: three letters.
#[derive(Clone, Copy, PartialEq, Eq)]
pub struct Maker {
    pub first: u8,
    pub second: u8,
    pub third: u8,
}

// What tells one meter, pitot tube or nozzle from another of its kind, compared with `==`. A serial number alone does not; a rebuilt one
// keeps it and gets another letter, 0 standing for none.
#[derive(Clone, Copy, PartialEq, Eq)]
pub struct Identity {
    pub maker: Maker,
    pub serial: u32,
    pub letter: u8,
}

// A certificate: the values are a meter's factor, a pitot tube's coefficient, or a nozzle's three diameters.
#[derive(Clone, Copy)]
pub struct Certificate {
    pub kind: u8,
    pub identity: Identity,
    pub day: u16,
    pub first: u16,
    pub second: u16,
    pub third: u16,
}

// A traverse point: time, heads and temperatures.
#[derive(Clone, Copy)]
pub struct Point {
    pub seconds: u16,
    pub head: u16,
    pub orifice: u16,
    pub stack: i16,
    pub inlet: i16,
    pub outlet: i16,
}

// A stretch of the run between two leak checks.
#[derive(Clone, Copy)]
pub struct Segment {
    pub seconds: u16,
    pub leak: u16,
}

// A filter or a rinse, weighed: tare, first and second final weight.
#[derive(Clone, Copy)]
pub struct Weighing {
    pub kind: u8,
    pub tare: u32,
    pub first: u32,
    pub second: u32,
}

// The sampling site: shape, sides, the distance to the next disturbance and that from the last one.
#[derive(Clone, Copy)]
pub struct Site {
    pub shape: u8,
    pub first: u16,
    pub second: u16,
    pub next: u16,
    pub last: u16,
}

// The acetone blank and the rinse.
#[derive(Clone, Copy)]
pub struct Acetone {
    pub residue: u16,
    pub blank: u16,
    pub rinse: u16,
    pub density: u16,
}

// How many of its points, segments and weighings a run uses.
#[derive(Clone, Copy)]
pub struct Counts {
    pub points: u8,
    pub segments: u8,
    pub weighings: u8,
}

// The head of a run's field sheet: what it is of, the barometer Pb and the static pressure Pg, the gas, the meter's first and
// last reading, and the rest.
#[derive(Clone, Copy)]
pub struct RunHeader {
    pub number: u16,
    pub day: u16,
    pub meter: Identity,
    pub pitot: Identity,
    pub nozzle: Identity,
    pub pb: u16,
    pub pg: i16,
    pub co2: u16,
    pub o2: u16,
    pub first: u32,
    pub last: u32,
    pub water: u16,
    pub site: Site,
    pub acetone: Acetone,
    pub counts: Counts,
}

// A run: its header, and as many of each list as its counts say.
#[derive(Clone, Copy)]
pub struct Run {
    pub header: RunHeader,
    pub points: [Point; PointCount::GREATEST as usize],
    pub segments: [Segment; SegmentCount::GREATEST as usize],
    pub weighings: [Weighing; WeighingCount::GREATEST as usize],
}
