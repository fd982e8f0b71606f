// What is written into a lent buffer, from its front on: bytes, numbers as bytes, words, and numbers in decimal digits.
// Each contract names the list of characters that is written, and asks for room for it and no more. Relies on the promises of `output`.

#![tactic(auto)]

ghost use Rattle.std.specs.Prelude.{[], ◌∷◌};
ghost use Rattle.output.specs.Bytes.{le};
ghost use Rattle.characters.specs.Numbers.{decimal, signed_decimal};
ghost use Rattle.characters.specs.Writing.{Room, Wrote};

use output::{put_byte, put_number};

// A buffer that is written into, and the place behind what was written.
#[derive(Drop)]
pub struct Writer<'a> {
    pub out: &'a mut [u8],
    pub at: usize,
}

impl<'a> Writer<'a> {
    // A single byte.
    pub fn byte(&mut self, byte: u8)
        requires { Room self.old (byte ∷ []) }
        ensures { Wrote self.old (byte ∷ []) self.new }
    {
        put_byte(self.out, self.at, byte);
        self.at += 1;
    }

    // A number in `width` bytes, the lowest first.
    pub fn number(&mut self, width: usize, value: u64)
        requires { Room self.old (le width value) }
        ensures { Wrote self.old (le width value) self.new }
    {
        put_number(self.out, self.at, width, value);
        self.at += width;
    }

    // A word, byte for byte.
    pub fn word(&mut self, word: &[u8])
        requires { Room self.old word.now }
        ensures { Wrote self.old word.now self.new }
    {
        let end = self.at + word.len();
        self.out[self.at..end].copy_from_slice(word);
        self.at = end;
    }

    // A number in decimal digits, the leading ones by a call of itself.
    pub fn decimal(&mut self, n: u64)
        requires { Room self.old (decimal n) }
        ensures { Wrote self.old (decimal n) self.new }
    {
        if n < 10 {
            self.byte((48 + n) as u8);
        } else {
            self.decimal(n / 10);
            self.byte((48 + n % 10) as u8);
        }
    }

    // A number with its sign where it is negative.
    pub fn signed(&mut self, value: i64)
        requires { Room self.old (signed_decimal value) }
        ensures { Wrote self.old (signed_decimal value) self.new }
    {
        if value < 0 {
            self.byte(b'-');
        }
        self.decimal(value.unsigned_abs());
    }
}
