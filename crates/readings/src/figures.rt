// What a figure file says: its version, how many steps a list has, and the points that a step asks for.

ghost use Rattle.std.specs.Prelude.{◌≡◌};
ghost use Rattle.readings.specs.Ranges.{least_figure_version, greatest_figure_version, figure_version, least_step_count, greatest_step_count, step_count, step_points};
ghost use Rattle.readings.specs.InOrder.{unsigned};

use crate::range;
use crate::range::Reading;

pub struct FigureVersion;

impl Reading for FigureVersion {
    type Value = u16;

    const LEAST: u16 = 1;

    const GREATEST: u16 = 1;

    ghost LEAST = { least_figure_version };

    ghost GREATEST = { greatest_figure_version };

    ghost allowed = { figure_version };

    ghost ranged = { unsigned _ _ };
}

// How many steps a list holds.
pub struct StepCount;

impl Reading for StepCount {
    type Value = u8;

    const LEAST: u8 = 1;

    const GREATEST: u8 = 16;

    ghost LEAST = { least_step_count };

    ghost GREATEST = { greatest_step_count };

    ghost allowed = { step_count };

    ghost ranged = { unsigned _ _ };
}

// The points that a step asks for: by shape at most so many, and then no more than the step before.
pub struct StepPoints;

impl StepPoints {
    pub const LEAST: u8 = 1;

    pub const GREATEST_ROUND: u8 = 48;

    pub const GREATEST_RECTANGULAR: u8 = 49;

    pub fn check(most: u8, value: u8) -> bool
        ensures { result ≡ step_points most value }
    {
        range::holds(value as u64, StepPoints::LEAST as u64, most as u64)
    }
}
