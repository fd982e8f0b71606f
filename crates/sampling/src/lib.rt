// Lines 16 to 20: the nozzle, the percent isokinetic, the catch and the concentration. Each is promised to be its equation
// of docs/RULES.md and to lie in a range; a line relies on the promises of the lines that it names and on nothing inside them.

#![tactic(auto)]

pub mod group;

ghost use Rattle.std.specs.Prelude.{◌≤◌, length};
ghost use Rattle.readings.specs.Ranges.{least_seconds, greatest_total_seconds};
ghost use Rattle.records.specs.InRange.{AcetoneOk};
ghost use Rattle.values.specs.Promise.{Is, IsValue, IsRatio, Between, DiametersOk};
ghost use Rattle.metering.specs.Promise.{least_dry_volume, greatest_dry_volume};
ghost use Rattle.stack.specs.Promise.{greatest_velocity};
ghost use Rattle.sampling.specs.Sampling.{nozzle_area, drawn_gas, isokinetic, deduction, catch, concentration};
ghost use Rattle.sampling.specs.Promise.{WeighingsOk, AreWeighingSums, CatchOk, IsCatch};

use arith::{Division, divide, round_div};
use records::{Acetone, Weighing};
use values::Diameters;

// Lines 16 to 20.
#[derive(Clone, Copy)]
pub struct Sampling {
    pub area: Option<u64>,
    pub drawn: Option<u64>,
    pub isokinetic: Option<Division>,
    pub catch: i64,
    pub concentration: Option<u64>,
}

// Line 16, 10^-8 ft2.
pub fn nozzle_area(nozzle: Option<Diameters>) -> Option<u64>
    requires { DiametersOk nozzle }
    ensures { IsValue 5454 545417 (nozzle_area nozzle) result }
{
    let d = nozzle?;
    let sum = d.first + d.second + d.third;
    Some(round_div(31416 * (sum * sum), 518400))
}

// Line 17.
pub fn drawn_gas(dry: Option<u64>, vapor: u64, pressure: u64, temperature: u64) -> Option<u64>
    requires dry { Between least_dry_volume greatest_dry_volume dry }
    requires ranges { (vapor ≤ 94140) × (177941 ≤ pressure) × (pressure ≤ 342059) × (temperature ≤ 24600) }
    ensures { IsValue 0 19675261 (drawn_gas dry vapor pressure temperature) result }
{
    let volume = dry?;
    Some(round_div(945 * temperature * (volume + vapor), 10 * pressure))
}

// Line 18, 0.01 percent, and what its one division comes to before it is rounded.
pub fn isokinetic(
    drawn: Option<u64>,
    velocity: Option<u64>,
    area: Option<u64>,
    time: u64,
) -> Option<Division>
    requires drawn { Between 0 19675261 drawn }
    requires velocity { Between 0 greatest_velocity velocity }
    requires area { Between 5454 545417 area }
    requires time { (least_seconds ≤ time) × (time ≤ greatest_total_seconds) }
    ensures { IsRatio 0 2164495159515952 (isokinetic drawn velocity area time) result }
{
    let gas = drawn?;
    let speed = velocity?;
    let opening = area?;
    if speed == 0 {
        return None;
    }
    Some(divide(600000000000 * gas, speed * opening * time))
}

// The acetone's share of the rinse, 0.1 mg: never more than the density of the acetone allows.
pub fn deduction(acetone: Acetone) -> u64
    requires { AcetoneOk acetone }
    ensures { Is 0 99 (deduction acetone) result }
{
    let rinse = acetone.rinse as u64;
    let found = round_div(acetone.residue as u64 * rinse, acetone.blank as u64);
    found.min(rinse * acetone.density as u64 / 100000)
}

// What all weighings come to, 0.1 mg: the second final weights, and the tares.
#[derive(Clone, Copy)]
pub struct WeighingSums {
    pub finals: u64,
    pub tares: u64,
}

// Both from one pass over the weighings.
fn weighing_sums(weighings: &[Weighing]) -> WeighingSums
    requires { WeighingsOk weighings.now (length weighings.now) }
    ensures { AreWeighingSums weighings.now (length weighings.now) result }
{
    let mut finals: u64 = 0;
    let mut tares: u64 = 0;
    for w in weighings {
        finals += w.second as u64;
        tares += w.tare as u64;
    }
    WeighingSums { finals, tares }
}

// Line 19, 0.1 mg. It may be negative.
pub fn catch(weighings: &[Weighing], acetone: Acetone) -> i64
    requires weighings { WeighingsOk weighings.now (length weighings.now) }
    requires acetone { AcetoneOk acetone }
    ensures { IsCatch (catch weighings.now (length weighings.now) acetone) result }
{
    let weighed = weighing_sums(weighings);
    let taken = weighed.tares + deduction(acetone);
    weighed.finals as i64 - taken as i64
}

// Line 20, 0.00001 gr/dscf.
pub fn concentration(caught: i64, dry: Option<u64>) -> Option<u64>
    requires { CatchOk caught × Between least_dry_volume greatest_dry_volume dry }
    ensures { IsValue 0 4937600000000 (concentration caught dry) result }
{
    let volume = dry?;
    if caught < 0 {
        return None;
    }
    Some(round_div(154300 * (caught as u64), volume))
}
