// What every group of lines shares: a line that is judged before it is rounded, a nozzle's diameters, the pressure of the air, and
// the sum that a signed reading is part of. What a line is worked from is an `Option`: `None` where a certificate is missing, or a
// line that it needs. The shapes of a line's promise stand in specs, their laws in proofs; nothing here belongs to one group of
// lines.

#![tactic(auto)]

pub mod signed;

ghost use Rattle.std.specs.Prelude.{◌≡◌, ◌≤◌, true};
ghost use Rattle.readings.specs.Ranges.{least_barometer, greatest_barometer, barometer};
ghost use Rattle.values.specs.Promise.{rounded_ratio};

use arith::Division;

// A nozzle's three diameters, 0.001 in.
#[derive(Clone, Copy)]
pub struct Diameters {
    pub first: u64,
    pub second: u64,
    pub third: u64,
}

// The pressure of the air, Pb, 0.01 in Hg, in the range of the barometer.
#[derive(Clone, Copy)]
pub struct AirPressure {
    pub pb: u64,
    pub ghost least: { least_barometer ≤ pb },
    pub ghost most: { pb ≤ greatest_barometer },
}

impl AirPressure {
    // A reading of the barometer that is in range.
    #[tactic(auto, using(readings::proofs::Ranges::within_least, readings::proofs::Ranges::within_greatest))]
    pub fn of(pb: u16) -> AirPressure
        requires { barometer pb ≡ true }
        ensures { result.pb ≡ pb }
    {
        AirPressure { pb: pb as u64 }
    }
}

// A line that is judged before it is rounded, as it is written.
pub fn rounded(line: Option<Division>) -> Option<u64>
    ensures { result ≡ rounded_ratio line }
{
    Some(line?.rounded)
}
