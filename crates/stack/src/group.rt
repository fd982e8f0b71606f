// Lines 9 to 15 together.

ghost use Rattle.std.specs.Prelude.{◌≡◌, true, ◌+◌, ◌≤◌, length};
ghost use Rattle.readings.specs.Ranges.{least_coefficient, greatest_coefficient, static_pressure, greatest_with_co2};
ghost use Rattle.values.specs.Promise.{Between};
ghost use Rattle.stack.specs.Stack.{stack};
ghost use Rattle.stack.specs.Promise.{TraverseOk, StackOk};

use crate::{
    Stack, StackPoints, density_root, dry_weight, stack_points, stack_pressure, velocity,
    wet_weight,
};
use records::Point;
use values::AirPressure;

// From the gas, line 8, the air's pressure and the static pressure, the points, and the pitot tube's coefficient Cp.
pub fn stack(
    co2: u64,
    o2: u64,
    moisture: Option<u64>,
    air: AirPressure,
    pg: i16,
    points: &[Point],
    cp: Option<u64>,
) -> Stack
    requires gas { co2 + o2 ≤ greatest_with_co2 }
    requires moisture { Between 0 100000 moisture }
    requires static_pressure { static_pressure pg ≡ true }
    requires traverse { TraverseOk points.now (length points.now) }
    requires coefficient { Between least_coefficient greatest_coefficient cp }
    ensures { (result ≡ stack co2 o2 moisture air.pb pg points.now (length points.now) cp) × StackOk result }
{
    let dry = dry_weight(co2, o2);
    let wet = wet_weight(dry, moisture);
    let pressure = stack_pressure(air, pg);
    let StackPoints { temperature, root } = stack_points(points);
    let density = density_root(wet, pressure, temperature);
    Stack {
        dry,
        wet,
        pressure,
        temperature,
        root,
        density,
        velocity: velocity(cp, root, density),
    }
}
