// The fields of a run's header.

ghost use Rattle.std.specs.Prelude.{◌≡◌};
ghost use Rattle.readings.specs.Ranges.{least_run_number, greatest_run_number, run_number, least_barometer, greatest_barometer, barometer, least_static_pressure, greatest_static_pressure, static_pressure, greatest_carbon_dioxide, carbon_dioxide, oxygen, greatest_first_reading, first_reading, last_reading, greatest_water, water, round_shape, rectangular_shape, shape, least_side, greatest_side, side, second_side, least_blank_volume, greatest_blank_volume, blank_volume, greatest_rinse_volume, rinse_volume, least_acetone_density, greatest_acetone_density, acetone_density, least_point_count, greatest_point_count, point_count, least_segment_count, greatest_segment_count, segment_count, greatest_weighing_count, weighing_count};
ghost use Rattle.readings.specs.InOrder.{unsigned, signed};

use crate::range;
use crate::range::Reading;

// A run's number.
pub struct RunNumber;

impl Reading for RunNumber {
    type Value = u16;

    const LEAST: u16 = 1;

    const GREATEST: u16 = 999;

    ghost LEAST = { least_run_number };

    ghost GREATEST = { greatest_run_number };

    ghost allowed = { run_number };

    ghost ranged = { unsigned _ _ };
}

// Barometric pressure Pb, 0.01 in Hg.
pub struct Barometer;

impl Reading for Barometer {
    type Value = u16;

    const LEAST: u16 = 2_000;

    const GREATEST: u16 = 3_200;

    ghost LEAST = { least_barometer };

    ghost GREATEST = { greatest_barometer };

    ghost allowed = { barometer };

    ghost ranged = { unsigned _ _ };
}

// Stack static pressure Pg, 0.01 in water.
pub struct StaticPressure;

impl Reading for StaticPressure {
    type Value = i16;

    const LEAST: i16 = -3_000;

    const GREATEST: i16 = 3_000;

    ghost LEAST = { least_static_pressure };

    ghost GREATEST = { greatest_static_pressure };

    ghost allowed = { static_pressure };

    ghost ranged = { signed _ _ };
}

// CO2, 0.1 percent.
pub struct CarbonDioxide;

impl Reading for CarbonDioxide {
    type Value = u16;

    const LEAST: u16 = 0;

    const GREATEST: u16 = 1_000;

    ghost LEAST = { 0 };

    ghost GREATEST = { greatest_carbon_dioxide };

    ghost allowed = { carbon_dioxide };

    ghost ranged = { unsigned _ _ };
}

// O2, 0.1 percent: from 0 to what CO2 leaves of 1,000.
pub struct Oxygen;

impl Oxygen {
    pub const LEAST: u16 = 0;

    pub const GREATEST_WITH_CO2: u16 = 1_000;

    pub fn check(value: u16, co2: u16) -> bool
        ensures { result ≡ oxygen co2 value }
    {
        range::holds(
            co2 as u64 + value as u64,
            Oxygen::LEAST as u64,
            Oxygen::GREATEST_WITH_CO2 as u64,
        )
    }
}

// The meter's first reading, 0.001 cubic ft.
pub struct FirstReading;

impl Reading for FirstReading {
    type Value = u32;

    const LEAST: u32 = 0;

    const GREATEST: u32 = 999_999_999;

    ghost LEAST = { 0 };

    ghost GREATEST = { greatest_first_reading };

    ghost allowed = { first_reading };

    ghost ranged = { unsigned _ _ };
}

// The meter's last reading, 0.001 cubic ft: from the first reading to 999,999 above it.
pub struct LastReading;

impl LastReading {
    pub const LEAST_ABOVE_FIRST: u32 = 0;

    pub const GREATEST_ABOVE_FIRST: u32 = 999_999;

    pub fn check(value: u32, first: u32) -> bool
        ensures { result ≡ last_reading first value }
    {
        range::holds(
            value as u64,
            first as u64 + LastReading::LEAST_ABOVE_FIRST as u64,
            first as u64 + LastReading::GREATEST_ABOVE_FIRST as u64,
        )
    }
}

// Water collected, 0.1 ml.
pub struct Water;

impl Reading for Water {
    type Value = u16;

    const LEAST: u16 = 0;

    const GREATEST: u16 = 20_000;

    ghost LEAST = { 0 };

    ghost GREATEST = { greatest_water };

    ghost allowed = { water };

    ghost ranged = { unsigned _ _ };
}

// The shape of the stack: 1 round, 2 rectangular.
pub struct Shape;

impl Shape {
    pub const ROUND: u8 = 1;

    pub const RECTANGULAR: u8 = 2;
}

impl Reading for Shape {
    type Value = u8;

    const LEAST: u8 = Shape::ROUND;

    const GREATEST: u8 = Shape::RECTANGULAR;

    ghost LEAST = { round_shape };

    ghost GREATEST = { rectangular_shape };

    ghost allowed = { shape };

    ghost ranged = { unsigned _ _ };
}

// A side of the stack, or its diameter, 0.1 in: in a run and in a layout.
pub struct Side;

impl Side {
    // The second side of a stack of this shape: a round stack has none, and it is written 0.
    pub fn check_second(value: u16, shape: u8) -> bool
        ensures { result ≡ second_side shape value }
    {
        if shape == Shape::ROUND {
            value == 0
        } else {
            Side::check(value)
        }
    }
}

impl Reading for Side {
    type Value = u16;

    const LEAST: u16 = 1;

    const GREATEST: u16 = 9_999;

    ghost LEAST = { least_side };

    ghost GREATEST = { greatest_side };

    ghost allowed = { side };

    ghost ranged = { unsigned _ _ };
}

// Volume of the acetone blank, ml.
pub struct BlankVolume;

impl Reading for BlankVolume {
    type Value = u16;

    const LEAST: u16 = 1;

    const GREATEST: u16 = 500;

    ghost LEAST = { least_blank_volume };

    ghost GREATEST = { greatest_blank_volume };

    ghost allowed = { blank_volume };

    ghost ranged = { unsigned _ _ };
}

// Volume of the acetone rinse, ml.
pub struct RinseVolume;

impl Reading for RinseVolume {
    type Value = u16;

    const LEAST: u16 = 0;

    const GREATEST: u16 = 1_000;

    ghost LEAST = { 0 };

    ghost GREATEST = { greatest_rinse_volume };

    ghost allowed = { rinse_volume };

    ghost ranged = { unsigned _ _ };
}

// Density of the acetone, 0.1 mg/ml.
pub struct AcetoneDensity;

impl Reading for AcetoneDensity {
    type Value = u16;

    const LEAST: u16 = 5_000;

    const GREATEST: u16 = 9_999;

    ghost LEAST = { least_acetone_density };

    ghost GREATEST = { greatest_acetone_density };

    ghost allowed = { acetone_density };

    ghost ranged = { unsigned _ _ };
}

// How many points a run holds.
pub struct PointCount;

impl Reading for PointCount {
    type Value = u8;

    const LEAST: u8 = 1;

    const GREATEST: u8 = 64;

    ghost LEAST = { least_point_count };

    ghost GREATEST = { greatest_point_count };

    ghost allowed = { point_count };

    ghost ranged = { unsigned _ _ };
}

// How many segments a run holds.
pub struct SegmentCount;

impl Reading for SegmentCount {
    type Value = u8;

    const LEAST: u8 = 1;

    const GREATEST: u8 = 16;

    ghost LEAST = { least_segment_count };

    ghost GREATEST = { greatest_segment_count };

    ghost allowed = { segment_count };

    ghost ranged = { unsigned _ _ };
}

// How many weighings a run holds.
pub struct WeighingCount;

impl Reading for WeighingCount {
    type Value = u8;

    const LEAST: u8 = 0;

    const GREATEST: u8 = 8;

    ghost LEAST = { 0 };

    ghost GREATEST = { greatest_weighing_count };

    ghost allowed = { weighing_count };

    ghost ranged = { unsigned _ _ };
}
