// The readings of a weighing.

ghost use Rattle.readings.specs.Ranges.{filter_kind, rinse_kind, weighing_kind, greatest_weight, weight};
ghost use Rattle.readings.specs.InOrder.{unsigned};

use crate::range::Reading;

// What was weighed.
pub struct WeighingKind;

impl WeighingKind {
    pub const FILTER: u8 = 1;

    pub const RINSE: u8 = 2;
}

impl Reading for WeighingKind {
    type Value = u8;

    const LEAST: u8 = WeighingKind::FILTER;

    const GREATEST: u8 = WeighingKind::RINSE;

    ghost LEAST = { filter_kind };

    ghost GREATEST = { rinse_kind };

    ghost allowed = { weighing_kind };

    ghost ranged = { unsigned _ _ };
}

// A tare or a final weight, 0.1 mg.
pub struct Weight;

impl Reading for Weight {
    type Value = u32;

    const LEAST: u32 = 0;

    const GREATEST: u32 = 4_000_000;

    ghost LEAST = { 0 };

    ghost GREATEST = { greatest_weight };

    ghost allowed = { weight };

    ghost ranged = { unsigned _ _ };
}
