// Lines 1 to 8 of a run together.

ghost use Rattle.std.specs.Prelude.{◌≡◌};
ghost use Rattle.readings.specs.Ranges.{least_factor, greatest_factor};
ghost use Rattle.records.specs.InRange.{RunOk};
ghost use Rattle.values.specs.Promise.{Between};
ghost use Rattle.metering.specs.Metering.{metering};
ghost use Rattle.metering.specs.Promise.{MeteringOk};

use crate::{
    MeterPoints, Metering, SamplingRate, dry_volume, meter_points, meter_pressure, metered_volume,
    moisture, water_vapor,
};
use records::Run;
use values::AirPressure;

// From the run and its meter's factor Y.
#[tactic(auto, using(crate::proofs::RunInRange::points_few, crate::proofs::RunInRange::segments_few, crate::proofs::RunInRange::readings_apart, crate::proofs::RunInRange::water_most))]
pub fn metering(run: &Run, y: Option<u64>) -> Metering
    requires run { RunOk run.now }
    requires factor { Between least_factor greatest_factor y }
    ensures { (result ≡ metering run.now y) × MeteringOk result }
{
    let header = run.header;
    let points = &run.points[..header.counts.points as usize];
    let segments = &run.segments[..header.counts.segments as usize];
    let MeterPoints {
        time,
        orifice,
        temperature,
    } = meter_points(points);
    let volume = metered_volume(header.first, header.last);
    let rate = SamplingRate { time, volume };
    let corrected = rate.corrected_volume(segments);
    let pressure = meter_pressure(AirPressure::of(header.pb), orifice);
    let dry = dry_volume(corrected, y, pressure, temperature);
    let vapor = water_vapor(header.water as u64);
    Metering {
        time,
        volume,
        corrected,
        pressure,
        temperature,
        dry,
        vapor,
        moisture: moisture(dry, vapor),
    }
}
