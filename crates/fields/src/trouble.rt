// The first trouble met in a file: the refusal's number, and the place that it is about.

ghost use Rattle.std.specs.Prelude.{◌≡◌, ◌+◌, ◌^◌, ◌<◌};
ghost use Rattle.refusals.specs.Reasons.{reason_number};
ghost use Rattle.fields.specs.Trouble.{trouble_unless, unless, count_range, field_range, trouble_place, from};
ghost use Rattle.fields.specs.Refusals.{trouble_of};

use refusals::Reason;

// What a file's refusal tells: its number, which `Reason` names, and the place that it is about.
#[derive(Clone, Copy)]
pub struct BadFile {
    pub number: u32,
    pub place: usize,
}

// What is found of a record that starts at a place of the file: a refusal's place is counted from the start of the file, and no more
// from the record's own.
pub fn from(start: usize, found: Result<(), BadFile>) -> Result<(), BadFile>
    requires { start + trouble_place (trouble_of found) < 2 ^ 64 }
    ensures { trouble_of result ≡ from start (trouble_of found) }
{
    found.map_err(|e| BadFile {
        number: e.number,
        place: start + e.place,
    })
}

// The trouble met so far, or else this one, unless all is well.
pub fn unless(met: Result<(), BadFile>, ok: bool, number: u32, place: usize) -> Result<(), BadFile>
    ensures { trouble_of result ≡ unless (trouble_of met) ok number place }
{
    match met {
        Err(e) => Err(e),
        Ok(()) => {
            if ok {
                Ok(())
            } else {
                Err(BadFile { number, place })
            }
        }
    }
}

// A row of a record's table: all is well, or the file is refused for this, at the field's place in the record. Rows stand one after the
// other by `and`, so that the first that is not good is the answer.
pub fn row(ok: bool, why: Reason, place: usize) -> Result<(), BadFile>
    ensures { trouble_of result ≡ trouble_unless ok (reason_number why) place }
{
    unless(Ok(()), ok, why.number(), place)
}

// The row of a count.
pub fn count(place: usize, ok: bool) -> Result<(), BadFile>
    ensures { trouble_of result ≡ trouble_unless ok count_range place }
{
    row(ok, Reason::Count, place)
}

// The row of a field other than a count.
pub fn field(place: usize, ok: bool) -> Result<(), BadFile>
    ensures { trouble_of result ≡ trouble_unless ok field_range place }
{
    row(ok, Reason::Field, place)
}
