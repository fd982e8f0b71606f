// The bytes of a figure file, of which any may be missing, and the trouble of one field.

ghost use Rattle.std.specs.Prelude.{◌≡◌, ◌+◌, ◌^◌, ◌<◌};
ghost use Rattle.fields.specs.Numbers.{byte_at, u16_at};
ghost use Rattle.fields.specs.Trouble.{checks};
ghost use Rattle.fields.specs.Refusals.{trouble_of};
ghost use Rattle.figures.specs.Figures.{field_rows};

use fields::trouble::{self, BadFile};
use refusals::Reason;

// The byte at a place, 0 past the end.
pub fn byte(s: &[u8], at: usize) -> u8
    ensures { result ≡ byte_at s.now at }
{
    s.get(at).copied().unwrap_or(0)
}

// The number at a place, whose missing bytes are 0.
pub fn number(s: &[u8], at: usize) -> u16
    requires { at + 1 < 2 ^ 64 }
    ensures { result ≡ u16_at s.now at }
{
    u16::from_le_bytes([byte(s, at), byte(s, at + 1)])
}

// The trouble met so far, or else that of a field of so many bytes at a place: the file ends before the field does, or the field
// is not good.
pub fn met(
    t: Result<(), BadFile>,
    s: &[u8],
    at: usize,
    width: usize,
    good: bool,
) -> Result<(), BadFile>
    requires { at + width < 2 ^ 64 }
    ensures { trouble_of result ≡ checks (trouble_of t) (field_rows s.now at width good) }
{
    t.and(trouble::row(at + width <= s.len(), Reason::Figure, s.len()))
        .and(trouble::row(good, Reason::Figure, at))
}
