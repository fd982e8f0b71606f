// The figure file: mark, version, and a list of steps for the distance from the last disturbance and one for that to the next.
// Completeness is by field: a field that the file cuts off is in trouble where the file ends, after every field before it.
// Relies on the numbers and the trouble of fields, on the kinds of reading and on a figure's steps.

#![tactic(auto)]

mod bytes;
mod lists;

ghost use Rattle.std.specs.Prelude.{◌≡◌};
ghost use Rattle.fields.specs.Trouble.{Clear, checks};
ghost use Rattle.fields.specs.Refusals.{trouble_of};
ghost use Rattle.figures.specs.Figures.{figure_marked, opening_rows, figure_trouble, last_at, next_at, read_figure, told_figure};

use crate::bytes::{met, number};
use crate::lists::List;
use fields::trouble::{self, BadFile};
use readings::figures::FigureVersion;
use readings::range::Reading;
use refusals::Reason;
use steps::Figure;

const VERSION_AT: usize = 3;

// Where the first list stands, that for the distance from the last disturbance.
const LAST_AT: usize = 5;

// Whether the file begins with "FIG".
fn marked(s: &[u8]) -> bool
    ensures { result ≡ figure_marked s.now }
{
    s.starts_with(b"FIG")
}

// The trouble of mark and version.
fn opening_trouble(s: &[u8]) -> Result<(), BadFile>
    ensures { trouble_of result ≡ checks Clear (opening_rows s.now) }
{
    let mark = met(Ok(()), s, 0, 3, marked(s));
    met(
        mark,
        s,
        VERSION_AT,
        2,
        FigureVersion::check(number(s, VERSION_AT)),
    )
}

// The list for the distance from the last disturbance.
fn list_from_last(s: &[u8]) -> List<'_>
    ensures { (result.bytes.now ≡ s.now) × (result.at ≡ last_at) }
{
    List {
        bytes: s,
        at: LAST_AT,
    }
}

// The list for the distance to the next, which stands behind it.
fn list_to_next(s: &[u8]) -> List<'_>
    ensures { (result.bytes.now ≡ s.now) × (result.at ≡ next_at s.now) }
{
    List {
        bytes: s,
        at: list_from_last(s).end(),
    }
}

// The first trouble met in the file.
fn trouble(s: &[u8]) -> Result<(), BadFile>
    ensures { trouble_of result ≡ figure_trouble s.now }
{
    opening_trouble(s)?;
    list_from_last(s).trouble()?;
    let next = list_to_next(s);
    next.trouble()?;
    let end = next.end();
    trouble::row(s.len() <= end, Reason::Figure, end)
}

// The figure in a file, or the first trouble met in it.
pub fn read(s: &[u8]) -> Result<Figure, BadFile>
    ensures { told_figure result ≡ read_figure s.now }
{
    trouble(s)?;
    Ok(Figure {
        last: list_from_last(s).steps(),
        next: list_to_next(s).steps(),
    })
}
