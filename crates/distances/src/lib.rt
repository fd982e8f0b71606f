// Where one point of a traverse stands: on the diameter of a round stack, or in a cell of a rectangular one.
// Relies on rounded division and the nearest root, and on the grids and the ranges of the readings; knows nothing of a job.

#![tactic(auto)]

pub mod cells;
pub mod diameters;
