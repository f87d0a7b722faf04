// The small functions on f64 that document 01's section 2 gives a meaning to, each for every f64.
#![tactic(auto)]

ghost use Rattle.std.specs.Prelude.{◌≡◌};
ghost use Rattle.std.specs.Float.Ieee.Scale.{finite};
ghost use Rattle.ieee.specs.Functions.{abs, max, clamp, powi2, powi5, finite_positive, of_words};

// The absolute value: the sign bit cleared.
pub fn abs(x: f64) -> f64
    ensures { result ≡ abs x }
{
    if x != x {
        x
    } else {
        f64::from_bits(f64::to_bits(x) % 0x8000_0000_0000_0000)
    }
}

// a if a > b, else b: a NaN on the left is dropped, one on the right is kept.
pub fn max(a: f64, b: f64) -> f64
    ensures { result ≡ max a b }
{
    if a > b { a } else { b }
}

// lo if x < lo, hi if x > hi, else x: a NaN stays.
pub fn clamp(x: f64, lo: f64, hi: f64) -> f64
    ensures { result ≡ clamp x lo hi }
{
    if x < lo {
        lo
    } else if x > hi {
        hi
    } else {
        x
    }
}

// Neither NaN nor an infinity.
pub fn is_finite(x: f64) -> bool
    ensures { result ≡ finite x }
{
    let infinity = 1.0 / 0.0;
    if x < infinity { -infinity < x } else { false }
}

// Finite and above zero.
pub fn finite_positive(x: f64) -> bool
    ensures { result ≡ finite_positive x }
{
    is_finite(x) && !(x <= 0.0)
}

pub fn powi2(x: f64) -> f64
    ensures { result ≡ powi2 x }
{
    x * x
}

pub fn powi5(x: f64) -> f64
    ensures { result ≡ powi5 x }
{
    x * ((x * x) * (x * x))
}

// The number with these bits, the high word first. A NaN's pattern gives the one NaN, whatever its payload.
pub fn from_words(high: u32, low: u32) -> f64
    ensures { result ≡ of_words high low }
{
    let bits = (high as u64) * 0x1_0000_0000 + (low as u64);
    if bits % 0x8000_0000_0000_0000 > 0x7ff0_0000_0000_0000 {
        0.0 / 0.0
    } else {
        f64::from_bits(bits)
    }
}
