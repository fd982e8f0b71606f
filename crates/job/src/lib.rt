// The walk over a whole job file, from the front to the first trouble met or to the end.
// Holds no heap and copies no record: a job is its counts and the place of each run. Relies on the records of parts.

#![tactic(auto)]

pub mod clear;
mod runs;

ghost use Rattle.std.specs.Prelude.{◌≡◌};
ghost use Rattle.fields.specs.Trouble.{Clear};
ghost use Rattle.opening.specs.Opening.{file_trouble};
ghost use Rattle.job.specs.ReadFiles.{IsRead};

use crate::clear::ClearFile;
use fields::numbers;
use fields::trouble::BadFile;
use heads::certificate;
use opening::JobFile;
use readings::headers::RunCount;
use readings::range::Reading;

// What a file holds.
#[derive(Clone, Copy)]
pub struct Job {
    pub certificates: usize,
    pub runs: usize,
    // Where each run starts; zeros behind the last.
    pub starts: [usize; RunCount::GREATEST as usize],
}

// A file with the job in it, or the first trouble met in it.
pub fn read(s: &[u8]) -> Result<ClearFile<'_>, BadFile>
    ensures { IsRead s.now result }
{
    opening::trouble(s)?;
    read_records(s)
}

// The same where the header is known to be in no trouble.
pub fn read_records(s: &[u8]) -> Result<ClearFile<'_>, BadFile>
    requires { file_trouble s.now ≡ Clear }
    ensures { IsRead s.now result }
{
    let certificates = numbers::u16_at(s, opening::CERTIFICATES_AT) as usize;
    let runs = numbers::u16_at(s, opening::RUNS_AT) as usize;
    let file = JobFile::of(s);
    entries::troubles(file, certificates)?;
    let starts = runs::read(file, certificate::place(file.version, certificates), runs)?;
    Ok(ClearFile {
        file,
        job: Job {
            certificates,
            runs,
            starts,
        },
    })
}
