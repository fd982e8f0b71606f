// Maker, serial and letter, 8 bytes, or in version 1 7 bytes without the letter, wherever a record of a job file names a meter, a pitot
// tube or a nozzle: what is held there, the trouble met in it, and the record as it goes on behind it. Relies on the numbers and the
// trouble of fields, on the version and on the kinds of reading.

#![tactic(auto)]

ghost use Rattle.std.specs.Prelude.{◌≡◌, ◌+◌, ◌^◌, ◌<◌, ◌≤◌, length, drop};
ghost use Rattle.fields.specs.Trouble.{checks};
ghost use Rattle.fields.specs.Refusals.{trouble_of};
ghost use Rattle.records.specs.InRange.{maker_letters};
ghost use Rattle.opening.specs.Opening.{letters};
ghost use Rattle.identities.specs.Identities.{letter_at, identity, behind, identity_rows};

use fields::numbers;
use fields::trouble::{self, BadFile};
use opening::JobFile;
use readings::certificates::{Letter, RebuildLetter, Serial};
use readings::headers::Version;
use readings::range::Reading;
use records::{Identity, Maker};

// A record of a job's file from its first byte on, and the version by which it is read. Nothing is left past the end of the file.
#[derive(Clone, Copy)]
pub struct Record<'a> {
    pub bytes: &'a [u8],
    pub version: Version,
}

impl<'a> Record<'a> {
    // The record at a place of a file.
    pub fn at(f: JobFile<'a>, at: usize) -> Record<'a>
        ensures { (result.bytes.now ≡ drop at f.entry.bytes.now) × (result.version ≡ f.entry.version) }
    {
        Record {
            bytes: numbers::tail(f.bytes, at),
            version: f.version,
        }
    }

    // The letter at a place of it.
    fn letter(self, at: usize) -> u8
        requires { at < length self.bytes.now }
        ensures { result ≡ letter_at self.entry.version self.entry.bytes.now at }
    {
        match self.version {
            Version::One => RebuildLetter::NONE,
            Version::Two => numbers::byte(self.bytes, at),
        }
    }

    // The identity at a place of it.
    pub fn identity(self, at: usize) -> Identity
        requires { at + 8 ≤ length self.bytes.now }
        ensures { result ≡ identity self.entry.version self.entry.bytes.now at }
    {
        let t = self.bytes;
        Identity {
            maker: Maker {
                first: numbers::byte(t, at),
                second: numbers::byte(t, at + 1),
                third: numbers::byte(t, at + 2),
            },
            serial: numbers::u32_at(t, at + 3),
            letter: self.letter(at + 7),
        }
    }

    // The record without the bytes of as many letters as `n` identities have: a field behind them has its place of version 1 there.
    pub fn behind(self, n: usize) -> &'a [u8]
        requires { letters self.version n ≤ length self.bytes.now }
        ensures { result.now ≡ behind self.entry.version n self.entry.bytes.now }
    {
        &self.bytes[opening::letters(self.version, n)..]
    }
}

// How many bytes a record has that has so many without the letters of its `n` identities.
pub fn size(v: Version, without: usize, n: usize) -> usize
    requires { without + n < 2 ^ 64 }
    ensures { result ≡ without + letters v n }
{
    without + opening::letters(v, n)
}

fn maker_letters(m: Maker) -> bool
    ensures { result ≡ maker_letters m }
{
    Letter::check(m.first) && Letter::check(m.second) && Letter::check(m.third)
}

// The trouble met so far, or else that of the rows of an identity at a place of a record.
pub fn rows(met: Result<(), BadFile>, id: Identity, at: usize) -> Result<(), BadFile>
    requires { at + 7 < 2 ^ 64 }
    ensures { trouble_of result ≡ checks (trouble_of met) (identity_rows at id) }
{
    met.and(trouble::field(at, maker_letters(id.maker)))
        .and(trouble::field(at + 3, Serial::check(id.serial)))
        .and(trouble::field(at + 7, RebuildLetter::check(id.letter)))
}
