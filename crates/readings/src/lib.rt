// The kinds of reading: a type for each, with the least and the greatest value that docs/RULES.md allows and the check that uses them.
// Each check's contract cites a definition of specs/Ranges that holds its numbers, so a constant changed alone is refused.
// Relies on nothing below it.

#![tactic(auto)]

pub mod certificates;
pub mod figures;
pub mod headers;
pub mod layouts;
pub mod points;
pub mod range;
pub mod runs;
pub mod weighings;
