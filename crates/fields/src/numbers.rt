// Little-endian numbers at a place of a slice that holds them whole.

ghost use Rattle.std.specs.Prelude.{◌≡◌, ◌+◌, ◌<◌, ◌≤◌, drop, length};
ghost use Rattle.fields.specs.Numbers.{byte_at, u16_at, u32_at, i16_at};

// What is left of `s` from place `at` on: nothing, if that is past the end.
pub fn tail(s: &[u8], at: usize) -> &[u8]
    ensures { result.now ≡ drop at s.now }
{
    &s[at.min(s.len())..]
}

pub fn byte(s: &[u8], at: usize) -> u8
    requires { at < length s.now }
    ensures { result ≡ byte_at s.now at }
{
    s[at]
}

pub fn u16_at(s: &[u8], at: usize) -> u16
    requires { at + 2 ≤ length s.now }
    ensures { result ≡ u16_at s.now at }
{
    u16::from_le_bytes([s[at], s[at + 1]])
}

pub fn u32_at(s: &[u8], at: usize) -> u32
    requires { at + 4 ≤ length s.now }
    ensures { result ≡ u32_at s.now at }
{
    u32::from_le_bytes([s[at], s[at + 1], s[at + 2], s[at + 3]])
}

// A signed number in two's complement.
pub fn i16_at(s: &[u8], at: usize) -> i16
    requires { at + 2 ≤ length s.now }
    ensures { result ≡ i16_at s.now at }
{
    u16_at(s, at).cast_signed()
}
