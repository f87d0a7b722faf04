// The remainder of two f64 in whole numbers: C's fmod, with no call of it.
#![tactic(auto)]

ghost use Rattle.std.specs.Prelude.{◌≡◌, ◌*◌, ◌%◌, ◌^◌, ◌<◌, ◌≤◌};
ghost use Rattle.std.specs.Float.{binary64};
ghost use Rattle.std.specs.Float.Ieee.{rem};
ghost use Rattle.ieee_rem.specs.Internal.{digits, place, pack, of_patterns};

const SIGN: u64 = 0x8000_0000_0000_0000;

const HIDDEN: u64 = 0x10_0000_0000_0000;

const INFINITY: u64 = 0x7ff0_0000_0000_0000;

// The digits of a pattern, with the leading one.
fn digits(bits: u64) -> u64
    ensures { result ≡ digits bits }
{
    let field = bits % SIGN / HIDDEN;
    if field == 0 {
        bits % HIDDEN
    } else {
        HIDDEN + bits % HIDDEN
    }
}

// How far the digits stand above the last place of all.
fn place(bits: u64) -> u64
    ensures { result ≡ place bits }
{
    let field = bits % SIGN / HIDDEN;
    if field == 0 { 0 } else { field - 1 }
}

// m·2^d % n, eleven digits at a time.
fn left(m: u64, n: u64, d: u64) -> u64
    requires { (0 < n) × (n < 2 ^ 53) }
    ensures { result ≡ m * 2 ^ d % n }
{
    let mut r = m % n;
    let mut k = d;
    while k >= 11 {
        r = (r * 2048) % n;
        k -= 11;
    }
    (r << k) % n
}

// The pattern, without a sign, of r·2^j in the last place of all.
fn pack(r: u64, j: u64) -> u64
    requires { (r < 2 ^ 53) × (j ≤ 2045) }
    ensures { result ≡ pack r j }
{
    let mut m = r;
    for k in (0..j).rev() {
        if m >= HIDDEN {
            return (k + 1) * HIDDEN + m;
        }
        m *= 2;
    }
    m
}

// The remainder of two finite patterns, the second no zero, whose digits stand no higher than the first's.
fn of_patterns(a: u64, b: u64) -> u64
    requires { (0 < b % 2 ^ 63) × (b % 2 ^ 63 < 0x7ff0_0000_0000_0000) × (place b ≤ place a) }
    ensures { result ≡ of_patterns a b }
{
    let r = left(digits(a), digits(b), place(a) - place(b));
    let sign = a / SIGN * SIGN;
    if r == 0 {
        sign
    } else {
        sign + pack(r, place(b))
    }
}

// The exact remainder with the dividend's sign.
pub fn rem(x: f64, y: f64) -> f64
    ensures { result ≡ rem binary64 x y }
{
    if x != x {
        return 0.0 / 0.0;
    }
    if y != y {
        return 0.0 / 0.0;
    }
    let a = f64::to_bits(x);
    let b = f64::to_bits(y);
    if a % SIGN >= INFINITY {
        return 0.0 / 0.0;
    }
    if b % SIGN >= INFINITY {
        return x;
    }
    if b % SIGN == 0 {
        return 0.0 / 0.0;
    }
    if place(a) < place(b) {
        return x;
    }
    f64::from_bits(of_patterns(a, b))
}
