// Lines 16 to 20 of a run together.

ghost use Rattle.std.specs.Prelude.{◌≡◌};
ghost use Rattle.records.specs.InRange.{RunOk};
ghost use Rattle.values.specs.Promise.{DiametersOk};
ghost use Rattle.metering.specs.Promise.{MeteringOk};
ghost use Rattle.stack.specs.Promise.{StackOk};
ghost use Rattle.sampling.specs.Sampling.{sampling};
ghost use Rattle.sampling.specs.Promise.{SamplingOk};

use crate::{Sampling, catch, concentration, drawn_gas, isokinetic, nozzle_area};
use metering::Metering;
use records::Run;
use stack::Stack;
use values::Diameters;

// From the run, its lines 1 to 15 and its nozzle's diameters.
#[tactic(auto, using(crate::proofs::RunInRange::weighings_few))]
pub fn sampling(run: &Run, m: Metering, s: Stack, nozzle: Option<Diameters>) -> Sampling
    requires run { RunOk run.now }
    requires metering { MeteringOk m }
    requires stack { StackOk s }
    requires diameters { DiametersOk nozzle }
    ensures { (result ≡ sampling run.now m s nozzle) × SamplingOk result }
{
    let header = run.header;
    let weighings = &run.weighings[..header.counts.weighings as usize];
    let area = nozzle_area(nozzle);
    let drawn = drawn_gas(m.dry, m.vapor, s.pressure, s.temperature);
    let caught = catch(weighings, header.acetone);
    Sampling {
        area,
        drawn,
        isokinetic: isokinetic(drawn, s.velocity, area, m.time),
        catch: caught,
        concentration: concentration(caught, m.dry),
    }
}
