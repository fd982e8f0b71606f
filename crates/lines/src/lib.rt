// The twenty lines of a run together, and the sheet that they are written on. Each group of lines is a crate below with its
// own promises; nothing here is arithmetic.

#![tactic(auto)]

pub mod sheets;

use metering::Metering;
use sampling::Sampling;
use stack::Stack;

// All twenty lines by name, for the findings.
#[derive(Clone, Copy)]
pub struct Lines {
    pub metering: Metering,
    pub stack: Stack,
    pub sampling: Sampling,
}

// A line in its place on the sheet: its value, where it is present.
#[derive(Clone, Copy)]
pub struct Entry {
    pub line: Option<i64>,
}

// How many lines a sheet has.
pub const LINES: usize = 20;

// A run's sheet: lines 1 to 20 in order.
#[derive(Clone, Copy)]
pub struct Sheet {
    pub entries: [Entry; LINES],
}
