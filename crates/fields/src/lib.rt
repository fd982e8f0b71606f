// The ground of the reader: little-endian numbers, read from any place of a file, and the first trouble met.
// Relies on nothing below it.

#![tactic(auto)]

pub mod numbers;
pub mod trouble;
