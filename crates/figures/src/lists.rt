// A list of steps: at its place a count, and behind it so many steps of 4 bytes.

ghost use Rattle.std.specs.Prelude.{◌≡◌, ◌+◌, ◌≤◌};
ghost use Rattle.fields.specs.Numbers.{byte_at};
ghost use Rattle.fields.specs.Trouble.{Clear, checks};
ghost use Rattle.fields.specs.Refusals.{trouble_of};
ghost use Rattle.readings.specs.Ranges.{greatest_step_count};
ghost use Rattle.figures.specs.Figures.{step_place, step_at, limits_at, step_rows, steps_rows, list_rows, list_end, steps_at};

use crate::bytes::{byte, met, number};
use fields::trouble::BadFile;
use readings::figures::{StepCount, StepPoints};
use readings::range::Reading;
use steps::{PLACES, Step};

const STEP_SIZE: usize = 4;

// What a step has to keep to: the least distance that it may have, and the most points that it may ask for, by shape.
#[derive(Clone, Copy)]
pub struct Limits {
    pub least: u32,
    pub round: u8,
    pub rectangular: u8,
}

// A list of a figure's file, which may be cut off: the file's bytes, and the place of its count.
#[derive(Clone, Copy)]
pub struct List<'a> {
    pub bytes: &'a [u8],
    pub at: usize,
    pub ghost near: { at ≤ 10000 },
}

impl List<'_> {
    // Where step i stands.
    fn place(self, i: u8) -> usize
        ensures { result ≡ step_place self.entry.at i }
    {
        self.at + 1 + STEP_SIZE * i as usize
    }

    fn step(self, i: u8) -> Step
        ensures { result ≡ step_at self.entry.bytes.now self.entry.at i }
    {
        let p = self.place(i);
        Step {
            least: number(self.bytes, p),
            round: byte(self.bytes, p + 2),
            rectangular: byte(self.bytes, p + 3),
        }
    }

    // What step i has to keep to, by the step before it: distances rise, and points never do.
    fn limits_of(self, i: u8) -> Limits
        ensures { result ≡ limits_at self.entry.bytes.now self.entry.at i }
    {
        if i == 0 {
            return Limits {
                least: 0,
                round: StepPoints::GREATEST_ROUND,
                rectangular: StepPoints::GREATEST_RECTANGULAR,
            };
        }
        let before = self.step(i - 1);
        Limits {
            least: before.least as u32 + 1,
            round: before.round,
            rectangular: before.rectangular,
        }
    }

    fn step_trouble(self, i: u8) -> Result<(), BadFile>
        ensures { trouble_of result ≡ checks Clear (step_rows self.entry.bytes.now self.entry.at i) }
    {
        let s = self.bytes;
        let p = self.place(i);
        let step = self.step(i);
        let limits = self.limits_of(i);
        met(Ok(()), s, p, 2, limits.least <= step.least as u32)?;
        met(
            Ok(()),
            s,
            p + 2,
            1,
            StepPoints::check(limits.round, step.round),
        )?;
        met(
            Ok(()),
            s,
            p + 3,
            1,
            StepPoints::check(limits.rectangular, step.rectangular),
        )
    }

    // The first trouble met in the first n steps.
    fn steps_trouble(self, n: u8) -> Result<(), BadFile>
        ensures { trouble_of result ≡ checks Clear (steps_rows self.entry.bytes.now self.entry.at n) }
    {
        for i in 0..n {
            self.step_trouble(i)?;
        }
        Ok(())
    }

    // The first trouble met in the list.
    pub fn trouble(self) -> Result<(), BadFile>
        ensures { trouble_of result ≡ checks Clear (list_rows self.entry.bytes.now self.entry.at) }
    {
        let count = byte(self.bytes, self.at);
        met(Ok(()), self.bytes, self.at, 1, StepCount::check(count))?;
        self.steps_trouble(count)
    }

    // The place behind the list.
    pub fn end(self) -> usize
        ensures end { result ≡ list_end self.entry.bytes.now self.entry.at }
        ensures near { result ≤ self.entry.at + 1021 }
    {
        self.place(byte(self.bytes, self.at))
    }

    // Its steps.
    pub fn steps(self) -> [Step; PLACES]
        requires { byte_at self.bytes.now self.at ≤ greatest_step_count }
        ensures { result ≡ steps_at self.entry.bytes.now self.entry.at }
    {
        let count = byte(self.bytes, self.at);
        let mut all = [Step {
            least: 0,
            round: 0,
            rectangular: 0,
        }; PLACES];
        for i in 0..count {
            all[i as usize] = self.step(i);
        }
        all
    }
}
