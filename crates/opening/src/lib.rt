// The header of a job file: mark, version, and how many certificates and runs follow; what the version says of the records behind
// it; and the trouble met in it, by which a file that is no job is told before anything else of it is looked at. Relies on the
// numbers and the trouble of fields and on the kinds of reading.

#![tactic(auto)]

ghost use Rattle.std.specs.Prelude.{◌≡◌, ◌≤◌, length};
ghost use Rattle.fields.specs.Trouble.{Clear, checks};
ghost use Rattle.fields.specs.Refusals.{trouble_of};
ghost use Rattle.opening.specs.Opening.{file_header_size, marked, version_of, letters, file_rows, file_trouble};

use fields::numbers;
use fields::trouble::{self, BadFile};
use readings::headers::{CertificateCount, RunCount, Version};
use readings::range::Reading;
use refusals::Reason;

// How many bytes it has; the certificates stand behind it.
pub const SIZE: usize = 9;

const VERSION_AT: usize = 3;

// Where the two counts stand.
pub const CERTIFICATES_AT: usize = 5;

pub const RUNS_AT: usize = 7;

// Whether the file begins with "SRJ".
fn marked(s: &[u8]) -> bool
    ensures { result ≡ marked s.now }
{
    s.starts_with(b"SRJ")
}

// The version that the file says.
pub fn version(s: &[u8]) -> Version
    requires { file_header_size ≤ length s.now }
    ensures { result ≡ version_of s.now }
{
    if numbers::u16_at(s, VERSION_AT) == 2 {
        Version::Two
    } else {
        Version::One
    }
}

// A job's file, and the version that it says: asked once, and handed on with the bytes.
#[derive(Clone, Copy)]
pub struct JobFile<'a> {
    pub bytes: &'a [u8],
    pub version: Version,
    pub ghost said: { version ≡ version_of bytes.now },
}

impl<'a> JobFile<'a> {
    pub fn of(bytes: &'a [u8]) -> JobFile<'a>
        requires { file_header_size ≤ length bytes.now }
        ensures { result.bytes.now ≡ bytes.now }
    {
        JobFile {
            bytes,
            version: version(bytes),
        }
    }
}

// How many letters an identity has.
fn each(v: Version) -> usize
    ensures { result ≡ letters v 1 }
{
    match v {
        Version::One => 0,
        Version::Two => 1,
    }
}

// How many letters `n` identities have. A product and no choice, so that a loop over certificates steps from one to the next.
pub fn letters(v: Version, n: usize) -> usize
    ensures { result ≡ letters v n }
{
    n * each(v)
}

// The rows of the header, one asked after another, so that a file which is no job is told by its mark alone.
fn rows(s: &[u8]) -> Result<(), BadFile>
    requires { file_header_size ≤ length s.now }
    ensures { trouble_of result ≡ checks Clear (file_rows s.now) }
{
    let version = numbers::u16_at(s, VERSION_AT);
    let certificates = numbers::u16_at(s, CERTIFICATES_AT);
    let runs = numbers::u16_at(s, RUNS_AT);
    trouble::row(marked(s), Reason::Mark, 0)?;
    trouble::row(Version::check(version), Reason::Version, VERSION_AT)?;
    trouble::count(CERTIFICATES_AT, CertificateCount::check(certificates))?;
    trouble::count(RUNS_AT, RunCount::check(runs))
}

// The first trouble met in the header.
pub fn trouble(s: &[u8]) -> Result<(), BadFile>
    ensures { trouble_of result ≡ file_trouble s.now }
{
    if s.len() < SIZE {
        return Err(BadFile {
            number: Reason::Incomplete.number(),
            place: s.len(),
        });
    }
    rows(s)
}
