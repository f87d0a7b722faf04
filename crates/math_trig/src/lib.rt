// sin and cos as document 01's section 2 gives them, with the first line of document 02, slip 7; each for every f64.
#![tactic(auto)]

ghost use Rattle.std.specs.Prelude.{◌≡◌};
ghost use Rattle.ieee.specs.Functions.{one};
ghost use Rattle.math_trig.specs.Trig.{first_line, fold, second_fold, series, sin_div, cos_div, sin_at, sin, cos_at, cos_of, cos, sin_cos};
ghost use Rattle.math_trig.specs.Internal.{near_line};

const TAU: f64 = 6.283185307179586;

pub const PI: f64 = 3.141592653589793;

pub const HALF_PI: f64 = 1.5707963267948966;

// T1, T with the low 28 bits of its significand cleared.
const TAU_HIGH: f64 = 6.283185243606567;

// T - T1.
const TAU_REST: f64 = 6.357301884918343e-8;

// What T lacks of 2π.
const TAU_LOW: f64 = 2.4492935982947064e-16;

// 1.5 · 2^52: a sum with it is a whole number, the nearest, ties to even.
const SHIFT: f64 = 6755399441055744.0;

// The first line where x is at most 2^20 in size: there it has no branch, as k is +0 up to π.
pub fn near_line(x: f64) -> f64
    ensures { result ≡ near_line x }
{
    let k = (x / TAU + SHIFT) - SHIFT;
    ((x - k * TAU_HIGH) - k * TAU_REST) - k * TAU_LOW
}

// The first line of sin and of cos: x less whole turns. Up to π there is none, and zeros are taken off.
fn first_line(x: f64) -> f64
    ensures { result ≡ first_line x }
{
    let size = ieee::abs(x);
    if size <= PI {
        x - 0.0
    } else if size <= 1048576.0 {
        near_line(x)
    } else {
        ieee_rem::rem(x, TAU)
    }
}

// The first fold, of sin and of cos: to -π..π.
fn fold(x: f64) -> f64
    ensures { result ≡ fold x }
{
    let r = first_line(x);
    if r > PI {
        r - TAU
    } else if r < -PI {
        r + TAU
    } else {
        r
    }
}

// sin's second fold: to -π/2..π/2.
pub fn second_fold(r: f64) -> f64
    ensures { result ≡ second_fold r }
{
    if r > HALF_PI {
        PI - r
    } else if r < -HALF_PI {
        -PI - r
    } else {
        r
    }
}

fn sin_series(z: f64) -> f64
    ensures { result ≡ series sin_div 10 z one }
{
    let p = 1.0;
    let p = 1.0 - (p * z) / 420.0;
    let p = 1.0 - (p * z) / 342.0;
    let p = 1.0 - (p * z) / 272.0;
    let p = 1.0 - (p * z) / 210.0;
    let p = 1.0 - (p * z) / 156.0;
    let p = 1.0 - (p * z) / 110.0;
    let p = 1.0 - (p * z) / 72.0;
    let p = 1.0 - (p * z) / 42.0;
    let p = 1.0 - (p * z) / 20.0;
    1.0 - (p * z) / 6.0
}

fn cos_series(z: f64) -> f64
    ensures { result ≡ series cos_div 11 z one }
{
    let p = 1.0;
    let p = 1.0 - (p * z) / 462.0;
    let p = 1.0 - (p * z) / 380.0;
    let p = 1.0 - (p * z) / 306.0;
    let p = 1.0 - (p * z) / 240.0;
    let p = 1.0 - (p * z) / 182.0;
    let p = 1.0 - (p * z) / 132.0;
    let p = 1.0 - (p * z) / 90.0;
    let p = 1.0 - (p * z) / 56.0;
    let p = 1.0 - (p * z) / 30.0;
    let p = 1.0 - (p * z) / 12.0;
    1.0 - (p * z) / 2.0
}

// Both series of one square.
#[derive(Clone, Copy)]
pub struct Series {
    pub sin: f64,
    pub cos: f64,
}

// Their steps stand beside each other, so that a processor has both under way.
pub fn both_series(z: f64) -> Series
    ensures { result ≡ record { sin = series sin_div 10 z one; cos = series cos_div 11 z one } }
{
    let c = 1.0;
    let c = 1.0 - (c * z) / 462.0;
    let s = 1.0;
    let s = 1.0 - (s * z) / 420.0;
    let c = 1.0 - (c * z) / 380.0;
    let s = 1.0 - (s * z) / 342.0;
    let c = 1.0 - (c * z) / 306.0;
    let s = 1.0 - (s * z) / 272.0;
    let c = 1.0 - (c * z) / 240.0;
    let s = 1.0 - (s * z) / 210.0;
    let c = 1.0 - (c * z) / 182.0;
    let s = 1.0 - (s * z) / 156.0;
    let c = 1.0 - (c * z) / 132.0;
    let s = 1.0 - (s * z) / 110.0;
    let c = 1.0 - (c * z) / 90.0;
    let s = 1.0 - (s * z) / 72.0;
    let c = 1.0 - (c * z) / 56.0;
    let s = 1.0 - (s * z) / 42.0;
    let c = 1.0 - (c * z) / 30.0;
    let s = 1.0 - (s * z) / 20.0;
    let c = 1.0 - (c * z) / 12.0;
    let s = 1.0 - (s * z) / 6.0;
    let c = 1.0 - (c * z) / 2.0;
    Series { sin: s, cos: c }
}

// sin of an angle that both folds have brought to -π/2..π/2.
fn sin_at(r: f64) -> f64
    ensures { result ≡ sin_at r }
{
    ieee::clamp(r * sin_series(r * r), -1.0, 1.0)
}

// cos of an angle up to π/2.
fn cos_at(a: f64) -> f64
    ensures { result ≡ cos_at a }
{
    ieee::clamp(cos_series(a * a), -1.0, 1.0)
}

// cos of an angle from 0 to π.
fn cos_of(a: f64) -> f64
    ensures { result ≡ cos_of a }
{
    if a > HALF_PI {
        -cos_at(PI - a)
    } else {
        cos_at(a)
    }
}

pub fn sin(x: f64) -> f64
    ensures { result ≡ sin x }
{
    sin_at(second_fold(fold(x)))
}

pub fn cos(x: f64) -> f64
    ensures { result ≡ cos x }
{
    cos_of(ieee::abs(fold(x)))
}

// The sine and the cosine of one angle.
#[derive(Clone, Copy)]
pub struct SinCos {
    pub sin: f64,
    pub cos: f64,
}

// Both, from one fold.
pub fn sin_cos(x: f64) -> SinCos
    ensures { result ≡ sin_cos x }
{
    let r = fold(x);
    SinCos {
        sin: sin_at(second_fold(r)),
        cos: cos_of(ieee::abs(r)),
    }
}
