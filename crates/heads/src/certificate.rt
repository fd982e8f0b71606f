// A certificate, 16 bytes, in version 2 17.

ghost use Rattle.std.specs.Prelude.{◌≡◌, ◌+◌, ◌^◌, ◌<◌, ◌≤◌, length};
ghost use Rattle.fields.specs.Trouble.{Clear, checks};
ghost use Rattle.fields.specs.Refusals.{trouble_of};
ghost use Rattle.heads.specs.Values.{certificate_size, certificate, certificate_place, certificate_of};
ghost use Rattle.heads.specs.Rows.{good_first, good_later, value_rows, certificate_rows, certificate_trouble};

use fields::numbers;
use fields::trouble::{self, BadFile};
use identities::Record;
use opening::JobFile;
use readings::certificates::{CertificateKind, Coefficient, Factor, NozzleDiameter, Unused};
use readings::headers::Version;
use readings::range::Reading;
use records::Certificate;
use refusals::Reason;

// Its bytes without the letter.
const SIZE: usize = 16;

pub fn certificate(t: Record<'_>) -> Certificate
    requires { certificate_size t.version ≤ length t.bytes.now }
    ensures { result ≡ certificate t.entry.version t.entry.bytes.now }
{
    let rest = t.behind(1);
    Certificate {
        kind: numbers::byte(t.bytes, 0),
        identity: t.identity(1),
        day: numbers::u16_at(rest, 8),
        first: numbers::u16_at(rest, 10),
        second: numbers::u16_at(rest, 12),
        third: numbers::u16_at(rest, 14),
    }
}

// Where certificate k of a file stands, counted from 0; also the place behind the first k.
pub fn place(v: Version, k: usize) -> usize
    requires { certificate_place v k < 2 ^ 64 }
    ensures { result ≡ certificate_place v k }
{
    opening::SIZE + SIZE * k + opening::letters(v, k)
}

// Certificate k of a file.
pub fn nth(f: JobFile<'_>, k: usize) -> Certificate
    requires { certificate_place f.version k + certificate_size f.version ≤ length f.bytes.now }
    ensures { result ≡ certificate_of f.entry.bytes.now k }
{
    certificate(Record {
        bytes: &f.bytes[place(f.version, k)..],
        version: f.version,
    })
}

// So many certificates of a job's file, from the first on, all of which lie within it.
#[derive(Clone, Copy)]
pub struct Certificates<'a> {
    pub file: JobFile<'a>,
    pub count: usize,
    pub ghost inside: { certificate_place file.version count ≤ length file.bytes.now },
}

impl Certificates<'_> {
    // Certificate k of them.
    #[tactic(auto, using(crate::proofs::Places::ends_before))]
    pub fn nth(self, k: usize) -> Certificate
        requires { k < self.count }
        ensures { result ≡ certificate_of self.entry.file.bytes.now k }
    {
        nth(self.file, k)
    }
}

// Whether the first value is in range, which goes by the kind.
fn good_first(kind: u8, value: u16) -> bool
    ensures { result ≡ good_first kind value }
{
    match kind {
        CertificateKind::METER => Factor::check(value),
        CertificateKind::PITOT => Coefficient::check(value),
        _ => NozzleDiameter::check(value),
    }
}

// Whether the second or third value is in range: only a nozzle has one.
fn good_later(kind: u8, value: u16) -> bool
    ensures { result ≡ good_later kind value }
{
    if kind == CertificateKind::NOZZLE {
        NozzleDiameter::check(value)
    } else {
        Unused::check(value)
    }
}

fn value_rows(c: Certificate) -> Result<(), BadFile>
    ensures { trouble_of result ≡ checks Clear (value_rows c) }
{
    trouble::field(10, good_first(c.kind, c.first))
        .and(trouble::field(12, good_later(c.kind, c.second)))
        .and(trouble::field(14, good_later(c.kind, c.third)))
}

fn rows(v: Version, c: Certificate) -> Result<(), BadFile>
    ensures { trouble_of result ≡ checks Clear (certificate_rows v c) }
{
    let met = trouble::field(0, CertificateKind::check(c.kind));
    identities::rows(met, c.identity, 1)?;
    trouble::from(opening::letters(v, 1), value_rows(c))
}

pub fn trouble(f: JobFile<'_>, at: usize) -> Result<(), BadFile>
    ensures { trouble_of result ≡ certificate_trouble f.entry.bytes.now at }
{
    let t = Record::at(f, at);
    if t.bytes.len() < identities::size(f.version, SIZE, 1) {
        return Err(BadFile {
            number: Reason::Incomplete.number(),
            place: f.bytes.len(),
        });
    }
    trouble::from(at, rows(f.version, certificate(t)))
}
