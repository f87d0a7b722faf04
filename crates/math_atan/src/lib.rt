// atan, asin and atan2 as document 01's section 2 gives them, each for every f64.
#![tactic(auto)]

ghost use Rattle.std.specs.Prelude.{◌≡◌, ◌&&◌, ◌||◌, cond};
ghost use Rattle.std.specs.Float.Ieee.{lt};
ghost use Rattle.ieee.specs.Operators.{◌⊘◌};
ghost use Rattle.ieee.specs.Functions.{zero_f, one, is_inf, is_zero};
ghost use Rattle.ieee.specs.Range.{sgn};
ghost use Rattle.math_atan.specs.Atan.{with_sign, half_angle, atan_series, atan_poly, atan_abs, atan, asin, turned, atan2};

use math_trig::{HALF_PI, PI};

const QUARTER_PI: f64 = 0.7853981633974483;

// One of two numbers, by the sign bit of x. A NaN has none.
fn by_sign(x: f64, set: f64, clear: f64) -> f64
    ensures { result ≡ cond (sgn x) set clear }
{
    if x != x {
        clear
    } else if f64::to_bits(x) < 0x8000_0000_0000_0000 {
        clear
    } else {
        set
    }
}

// v, whose sign bit is clear, with the sign bit of x.
fn with_sign(v: f64, x: f64) -> f64
    ensures { result ≡ with_sign (sgn x) v }
{
    by_sign(x, -v, v)
}

// Cubic(a, b, c, d) is a + b * h + c * h ^ 2 + d * h ^ 3.
#[derive(Drop)]
struct Cubic(f64, f64, f64, f64);

// Where t is the tangent of an angle and h = 1 + t * t, the root of h is 1 over the angle's cosine.
// The same of half the angle, for h from 1 to 2 in 16 pieces. Each is within one part in 2 ^ 27 of it,
// though nothing is proved of that: it is a guess, from which the root is found sooner.
fn half_piece(i: u64) -> Cubic {
    match i {
        0 => Cubic(0.76118575540, 0.39629442440, -0.20114411734, 0.04366394141),
        1 => Cubic(0.76963650656, 0.37241577571, -0.17865017970, 0.03659975092),
        2 => Cubic(0.77763159284, 0.35108141100, -0.15967128875, 0.03097120267),
        3 => Cubic(0.78521616789, 0.33190895903, -0.14351457978, 0.02643223700),
        4 => Cubic(0.79242895065, 0.31458895382, -0.12964966704, 0.02273216522),
        5 => Cubic(0.79930340186, 0.29886823174, -0.11766497988, 0.01968637063),
        6 => Cubic(0.80586864172, 0.28453767427, -0.10723720406, 0.01715686090),
        7 => Cubic(0.81215017463, 0.27142302327, -0.09810951634, 0.01503909621),
        8 => Cubic(0.81817046779, 0.25937790502, -0.09007583422, 0.01325290342),
        9 => Cubic(0.82394941793, 0.24827846662, -0.08296925259, 0.01173610401),
        10 => Cubic(0.82950473120, 0.23801920557, -0.07665344179, 0.01043997682),
        11 => Cubic(0.83485223500, 0.22850969360, -0.07101617076, 0.00932598208),
        12 => Cubic(0.84000613599, 0.21967197867, -0.06596437569, 0.00836336567),
        13 => Cubic(0.84497923507, 0.21143850656, -0.06142036670, 0.00752738625),
        14 => Cubic(0.84978310763, 0.20375044472, -0.05731888192, 0.00679798892),
        _ => Cubic(0.85442825579, 0.19655632029, -0.05360477938, 0.00615880272),
    }
}

fn half_guess(h: f64) -> f64 {
    if h != h {
        h
    } else {
        let p = half_piece(f64::to_bits(h) / 0x1_0000_0000_0000 % 16);
        let square = h * h;
        p.0 + p.1 * h + p.2 * square + p.3 * h * square
    }
}

// The tangent of a quarter of the angle whose tangent is t: twice the half angle.
fn quarter_angle(t: f64) -> f64
    ensures { result ≡ half_angle (half_angle t) }
{
    let h = 1.0 + t * t;
    let u = t / (1.0 + math_sqrt::sqrt(h));
    u / (1.0 + math_sqrt::sqrt_near(1.0 + u * u, half_guess(h)))
}

fn atan_series(z: f64) -> f64
    ensures { result ≡ atan_series 13 z zero_f }
{
    let p = 0.0;
    let p = 1.0 / 25.0 - z * p;
    let p = 1.0 / 23.0 - z * p;
    let p = 1.0 / 21.0 - z * p;
    let p = 1.0 / 19.0 - z * p;
    let p = 1.0 / 17.0 - z * p;
    let p = 1.0 / 15.0 - z * p;
    let p = 1.0 / 13.0 - z * p;
    let p = 1.0 / 11.0 - z * p;
    let p = 1.0 / 9.0 - z * p;
    let p = 1.0 / 7.0 - z * p;
    let p = 1.0 / 5.0 - z * p;
    let p = 1.0 / 3.0 - z * p;
    1.0 / 1.0 - z * p
}

fn atan_poly(t: f64) -> f64
    ensures { result ≡ atan_poly t }
{
    4.0 * (t * atan_series(t * t))
}

// a, or 1/a if a > 1.
fn at_most_one(a: f64) -> f64
    ensures { result ≡ cond (lt one a) (one ⊘ a) a }
{
    if a > 1.0 { 1.0 / a } else { a }
}

// atan of an a whose sign bit is clear.
fn atan_abs(a: f64) -> f64
    ensures { result ≡ atan_abs a }
{
    let q = atan_poly(quarter_angle(at_most_one(a)));
    if a > 1.0 { HALF_PI - q } else { q }
}

pub fn atan(x: f64) -> f64
    ensures { result ≡ atan x }
{
    if x != x {
        x
    } else {
        with_sign(atan_abs(ieee::abs(x)), x)
    }
}

pub fn asin(x: f64) -> f64
    ensures { result ≡ asin x }
{
    2.0 * atan(x / (1.0 + math_sqrt::sqrt(1.0 - x * x)))
}

fn is_infinite(x: f64) -> bool
    ensures { result ≡ is_inf x }
{
    let infinity = 1.0 / 0.0;
    if x == infinity { true } else { x == -infinity }
}

fn both_infinite(a: f64, b: f64) -> bool
    ensures { result ≡ (is_inf a && is_inf b) }
{
    if is_infinite(a) {
        is_infinite(b)
    } else {
        false
    }
}

// Whether a is a zero, or b an infinity.
fn zero_or_infinite(a: f64, b: f64) -> bool
    ensures { result ≡ (is_zero a || is_inf b) }
{
    if a == 0.0 { true } else { is_infinite(b) }
}

// atan(y / x) = q, taken to the half plane of x.
fn turned(q: f64, y: f64, x: f64) -> f64
    ensures { result ≡ turned q y x }
{
    if x < 0.0 {
        if y > 0.0 {
            return q + PI;
        }
        if y < 0.0 {
            return q - PI;
        }
    }
    q
}

// The angle of the point (x, y).
pub fn atan2(y: f64, x: f64) -> f64
    ensures { result ≡ atan2 y x }
{
    if y != y {
        y
    } else if x != x {
        x
    } else if both_infinite(y, x) {
        with_sign(by_sign(x, 3.0 * QUARTER_PI, QUARTER_PI), y)
    } else if zero_or_infinite(y, x) {
        with_sign(by_sign(x, PI, 0.0), y)
    } else if zero_or_infinite(x, y) {
        with_sign(HALF_PI, y)
    } else {
        turned(atan(y / x), y, x)
    }
}
