// A run's header, 64 bytes, in version 2 67, before its points, segments and weighings.

ghost use Rattle.std.specs.Prelude.{◌≡◌, ◌≤◌, length};
ghost use Rattle.fields.specs.Trouble.{Clear, checks};
ghost use Rattle.fields.specs.Refusals.{trouble_of};
ghost use Rattle.readings.specs.declared.headers.Version.TheVariants.{One};
ghost use Rattle.identities.specs.Identities.{behind};
ghost use Rattle.heads.specs.Values.{run_header_size, site, acetone, counts, header};
ghost use Rattle.heads.specs.Rows.{reading_rows, header_rows, header_trouble};

use fields::numbers;
use fields::trouble::{self, BadFile};
use identities::Record;
use opening::JobFile;
use readings::certificates::Unused;
use readings::headers::Version;
use readings::range::Reading;
use readings::runs::{
    AcetoneDensity, Barometer, BlankVolume, CarbonDioxide, FirstReading, LastReading, Oxygen,
    PointCount, RinseVolume, RunNumber, SegmentCount, Shape, Side, StaticPressure, Water,
    WeighingCount,
};
use records::{Acetone, Counts, RunHeader, Site};
use refusals::Reason;

// Its bytes without the letters.
const SIZE: usize = 64;

// How many bytes it has in a file of that version.
pub fn size(v: Version) -> usize
    ensures { result ≡ run_header_size v }
{
    identities::size(v, SIZE, 3)
}

// A run's header behind its identities, where a field has its place of version 1.
#[derive(Clone, Copy)]
pub struct Rest<'a> {
    pub bytes: &'a [u8],
    pub ghost whole: { run_header_size One ≤ length bytes.now },
}

impl<'a> Rest<'a> {
    // The rest of a record that holds a whole header.
    pub fn of(t: Record<'a>) -> Rest<'a>
        requires { run_header_size t.version ≤ length t.bytes.now }
        ensures { result.bytes.now ≡ behind t.entry.version 3 t.entry.bytes.now }
    {
        Rest { bytes: t.behind(3) }
    }

    fn site(self) -> Site
        ensures { result ≡ site self.entry.bytes.now }
    {
        let t = self.bytes;
        Site {
            shape: numbers::byte(t, 43),
            first: numbers::u16_at(t, 44),
            second: numbers::u16_at(t, 46),
            next: numbers::u16_at(t, 48),
            last: numbers::u16_at(t, 50),
        }
    }

    fn acetone(self) -> Acetone
        ensures { result ≡ acetone self.entry.bytes.now }
    {
        let t = self.bytes;
        Acetone {
            residue: numbers::u16_at(t, 52),
            blank: numbers::u16_at(t, 54),
            rinse: numbers::u16_at(t, 56),
            density: numbers::u16_at(t, 58),
        }
    }

    pub fn counts(self) -> Counts
        ensures { result ≡ counts self.entry.bytes.now }
    {
        let t = self.bytes;
        Counts {
            points: numbers::byte(t, 60),
            segments: numbers::byte(t, 61),
            weighings: numbers::byte(t, 62),
        }
    }
}

pub fn header(t: Record<'_>) -> RunHeader
    requires { run_header_size t.version ≤ length t.bytes.now }
    ensures { result ≡ header t.entry.version t.entry.bytes.now }
{
    let rest = Rest::of(t);
    RunHeader {
        number: numbers::u16_at(t.bytes, 0),
        day: numbers::u16_at(t.bytes, 2),
        meter: t.identity(4),
        pitot: t.identity(11 + opening::letters(t.version, 1)),
        nozzle: t.identity(18 + opening::letters(t.version, 2)),
        pb: numbers::u16_at(rest.bytes, 25),
        pg: numbers::i16_at(rest.bytes, 27),
        co2: numbers::u16_at(rest.bytes, 29),
        o2: numbers::u16_at(rest.bytes, 31),
        first: numbers::u32_at(rest.bytes, 33),
        last: numbers::u32_at(rest.bytes, 37),
        water: numbers::u16_at(rest.bytes, 41),
        site: rest.site(),
        acetone: rest.acetone(),
        counts: rest.counts(),
    }
}

fn reading_rows(h: RunHeader, spare: u8) -> Result<(), BadFile>
    ensures { trouble_of result ≡ checks Clear (reading_rows h spare) }
{
    trouble::field(25, Barometer::check(h.pb))
        .and(trouble::field(27, StaticPressure::check(h.pg)))
        .and(trouble::field(29, CarbonDioxide::check(h.co2)))
        .and(trouble::field(31, Oxygen::check(h.o2, h.co2)))
        .and(trouble::field(33, FirstReading::check(h.first)))
        .and(trouble::field(37, LastReading::check(h.last, h.first)))
        .and(trouble::field(41, Water::check(h.water)))
        .and(trouble::field(43, Shape::check(h.site.shape)))
        .and(trouble::field(44, Side::check(h.site.first)))
        .and(trouble::field(46, Side::check_second(h.site.second, h.site.shape)))
        .and(trouble::field(54, BlankVolume::check(h.acetone.blank)))
        .and(trouble::field(56, RinseVolume::check(h.acetone.rinse)))
        .and(trouble::field(58, AcetoneDensity::check(h.acetone.density)))
        .and(trouble::count(60, PointCount::check(h.counts.points)))
        .and(trouble::count(61, SegmentCount::check(h.counts.segments)))
        .and(trouble::count(62, WeighingCount::check(h.counts.weighings)))
        .and(trouble::field(63, Unused::check(spare as u16)))
}

fn rows(v: Version, h: RunHeader, spare: u8) -> Result<(), BadFile>
    ensures { trouble_of result ≡ checks Clear (header_rows v h spare) }
{
    let met = trouble::field(0, RunNumber::check(h.number));
    let met = identities::rows(met, h.meter, 4);
    let met = identities::rows(met, h.pitot, 11 + opening::letters(v, 1));
    identities::rows(met, h.nozzle, 18 + opening::letters(v, 2))?;
    trouble::from(opening::letters(v, 3), reading_rows(h, spare))
}

pub fn trouble(f: JobFile<'_>, at: usize) -> Result<(), BadFile>
    ensures { trouble_of result ≡ header_trouble f.entry.bytes.now at }
{
    let t = Record::at(f, at);
    if t.bytes.len() < size(f.version) {
        return Err(BadFile {
            number: Reason::Incomplete.number(),
            place: f.bytes.len(),
        });
    }
    let spare = numbers::byte(Rest::of(t).bytes, 63);
    trouble::from(at, rows(f.version, header(t), spare))
}
