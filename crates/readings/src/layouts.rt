// What a traverse layout is asked for. A side and a nozzle are those of a run and a certificate.

ghost use Rattle.std.specs.Prelude.{◌≡◌};
ghost use Rattle.readings.specs.Ranges.{least_layout_diameter, greatest_layout_diameter, layout_diameter, diameter_points};
ghost use Rattle.readings.specs.InOrder.{unsigned};

use crate::range;
use crate::range::Reading;

// Diameter of a round stack that is laid out, 0.1 in.
pub struct LayoutDiameter;

impl Reading for LayoutDiameter {
    type Value = u16;

    const LEAST: u16 = 120;

    const GREATEST: u16 = 9_999;

    ghost LEAST = { least_layout_diameter };

    ghost GREATEST = { greatest_layout_diameter };

    ghost allowed = { layout_diameter };

    ghost ranged = { unsigned _ _ };
}

// Points on a diameter: an even number.
pub struct DiameterPoints;

impl DiameterPoints {
    pub const LEAST: u16 = 2;

    pub const GREATEST: u16 = 24;

    pub fn check(value: u16) -> bool
        ensures { result ≡ diameter_points value }
    {
        value % 2 == 0
            && range::holds(
                value as u64,
                DiameterPoints::LEAST as u64,
                DiameterPoints::GREATEST as u64,
            )
    }
}
