// All twenty lines of a run together, and the sheet that they are written on.

ghost use Rattle.std.specs.Prelude.{◌≡◌, ◌≤◌};
ghost use Rattle.values.specs.Promise.{Between};
ghost use Rattle.lines.specs.Promise.{RunWithValues, LinesOk};
ghost use Rattle.lines.specs.Sheet.{lines, always, if_known, sheet};

use crate::{Entry, Lines, Sheet};
use metering::group::metering;
use records::Run;
use sampling::group::sampling;
use stack::group::stack;
use values::{AirPressure, Diameters};

// All twenty, from a run and the values of its certificates.
#[tactic(auto, using(metering::proofs::RunInRange::points_few, crate::proofs::RunInRange::gas_range))]
pub fn lines(run: &Run, y: Option<u64>, cp: Option<u64>, nozzle: Option<Diameters>) -> Lines
    requires { RunWithValues run.now y cp nozzle }
    ensures { (result ≡ lines run.now y cp nozzle) × LinesOk result }
{
    let header = run.header;
    let points = &run.points[..header.counts.points as usize];
    let m = metering(run, y);
    let s = stack(
        header.co2 as u64,
        header.o2 as u64,
        m.moisture,
        AirPressure::of(header.pb),
        header.pg,
        points,
        cp,
    );
    Lines {
        metering: m,
        stack: s,
        sampling: sampling(run, m, s, nozzle),
    }
}

// A line that is always there.
fn always(value: u64) -> Entry
    requires { value ≤ 9223372036854775807 }
    ensures { result ≡ always value }
{
    Entry {
        line: Some(value as i64),
    }
}

// A line that is absent where its value is missing.
fn if_known(value: Option<u64>) -> Entry
    requires { Between 0 9223372036854775807 value }
    ensures { result ≡ if_known value }
{
    match value {
        Some(number) => always(number),
        None => Entry { line: None },
    }
}

// The sheet: lines 1 to 20 in order.
pub fn sheet(lines: Lines) -> Sheet
    requires { LinesOk lines }
    ensures { result ≡ sheet lines }
{
    let m = lines.metering;
    let s = lines.stack;
    let p = lines.sampling;
    Sheet {
        entries: [
            always(m.time),
            always(m.volume),
            always(m.corrected),
            always(m.pressure),
            always(m.temperature),
            if_known(m.dry),
            always(m.vapor),
            if_known(m.moisture),
            always(s.dry),
            if_known(s.wet),
            always(s.pressure),
            always(s.temperature),
            always(s.root),
            if_known(s.density),
            if_known(s.velocity),
            if_known(p.area),
            if_known(p.drawn),
            if_known(values::rounded(p.isokinetic)),
            Entry {
                line: Some(p.catch),
            },
            if_known(p.concentration),
        ],
    }
}
