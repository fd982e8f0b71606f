// What a call gives back: its answer as one number, and bytes written one after another into a buffer that the caller lends.
// Each writer's contract says what every byte of the buffer is afterwards. Relies on the reasons to refuse, and on what is
// wrong with a file.

#![tactic(auto)]

ghost use Rattle.std.specs.Prelude.{◌≡◌, [], ◌∷◌, ◌+◌, ◌*◌, ◌<◌, ◌≤◌, length, min};
ghost use Rattle.refusals.specs.Reasons.{reason_number};
ghost use Rattle.output.specs.Answers.{answer_told, packed};
ghost use Rattle.output.specs.Bytes.{le};
ghost use Rattle.output.specs.Splice.{spliced};

use fields::trouble::BadFile;
use refusals::Reason;

// A refusal as the caller sees it: its number in the high 32 bits, and in the low ones the place that it is about, a byte of a file, or 0
// where it is about none. One number, so that no answer has to be put together from parts.
#[derive(Clone, Copy)]
pub struct Refusal {
    pub told: u64,
}

// What the high 32 bits count.
const HIGH: u64 = 4_294_967_296;

// A refusal that is about no place.
impl From<Reason> for Refusal {
    ghost from_gives = { λ why r. r ≡ record { told = reason_number why * 4294967296 } };

    fn from(why: Reason) -> Refusal {
        Refusal {
            told: why.number() as u64 * HIGH,
        }
    }
}

// A refusal of a file. No file that is read is so long that a place does not fit.
impl From<BadFile> for Refusal {
    ghost from_gives = { λ e r. r ≡ record { told = e.number * 4294967296 + min e.place 4294967295 } };

    fn from(e: BadFile) -> Refusal {
        Refusal {
            told: e.number as u64 * HIGH + e.place.min(u32::MAX as usize) as u64,
        }
    }
}

// The answer as the caller sees it: the refusal's number in the high 32 bits, 0 where there is none.
pub fn packed(answer: Result<u32, Refusal>) -> u64
    ensures { result ≡ packed (answer_told answer) }
{
    match answer {
        Ok(value) => value as u64,
        Err(r) => r.told,
    }
}

// One byte at a place.
pub fn put_byte(out: &mut [u8], at: usize, byte: u8)
    requires { at < length out.old }
    ensures { out.new ≡ spliced out.old at (byte ∷ []) }
{
    out[at] = byte;
}

// A number in `width` bytes at a place, the lowest first.
pub fn put_number(out: &mut [u8], at: usize, width: usize, value: u64)
    requires { at + width ≤ length out.old }
    ensures { out.new ≡ spliced out.old at (le width value) }
{
    let mut rest = value;
    for i in 0..width {
        put_byte(out, at + i, (rest % 256) as u8);
        rest /= 256;
    }
}
