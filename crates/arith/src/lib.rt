// The ground floor: rounded division and the nearest root, each once for every unit.
// Nothing here knows of stacks or meters. The layers above rely on `round_div` and `nearest_root` and their laws.

#![tactic(auto)]

ghost use Rattle.std.specs.Prelude.{◌≡◌, ◌<◌};
ghost use Rattle.arith.specs.Rounding.{round_div, division};
ghost use Rattle.arith.specs.Root.{nearest_root, whole_root, first_bound};

// A division: the whole quotient, the remainder, and the nearest whole number, halves upward.
#[derive(Clone, Copy)]
pub struct Division {
    pub quotient: u64,
    pub remainder: u64,
    pub rounded: u64,
}

// n / d, all three. The quotient and the remainder decide which way it is rounded, so nothing overflows.
pub fn divide(n: u64, d: u64) -> Division
    requires { 0 < d }
    ensures { result ≡ division n d }
{
    let quotient = n / d;
    let remainder = n % d;
    let rounded = if d - remainder <= remainder {
        quotient + 1
    } else {
        quotient
    };
    Division {
        quotient,
        remainder,
        rounded,
    }
}

// n / d to the nearest whole number, halves upward.
pub fn round_div(n: u64, d: u64) -> u64
    requires { 0 < d }
    ensures { result ≡ round_div n d }
{
    divide(n, d).rounded
}

// The whole number nearest half the square root of y: of a whole number x, the root is nearest_root(4 x).
pub fn nearest_root(y: u64) -> u64
    ensures { result ≡ nearest_root y }
{
    let whole = whole_root(y / 4);
    let odd = 2 * whole + 1;
    if odd * odd <= y { whole + 1 } else { whole }
}

// The whole part of the square root of x. The mean of a bound and of x divided by it is never below that part, and where
// the bound's square is above x it is a closer bound.
fn whole_root(x: u64) -> u64
    ensures { result ≡ whole_root x }
{
    let mut bound = first_bound(x);
    while x < bound * bound {
        bound = (bound + x / bound) / 2;
    }
    bound
}

// The first bound, from the length of x in bits: the mean of the power of two of half that length and of x divided by it.
fn first_bound(x: u64) -> u64
    ensures { result ≡ first_bound x }
{
    let half = (64 - u64::leading_zeros(x)) / 2;
    ((1 << half) + (x >> half)) / 2
}
