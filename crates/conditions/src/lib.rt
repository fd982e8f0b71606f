// What each rule goes by, one by one, but for those about the site. Relies on the chosen certificates and on what each line is promised to be.
// No rule takes a run or an array.

#![tactic(auto)]

pub mod certificates;
pub mod field;
pub mod sheet;
pub mod weighings;

use records::{Point, Segment, Weighing};

// What a rule looks at: one of the run's points, segments or weighings, or the run as a whole.
#[derive(Clone, Copy)]
pub enum Part {
    Whole,
    OnePoint(Point),
    OneSegment(Segment),
    OneWeighing(Weighing),
}
