// Sines and cosines of up to 16 angles at once, each with the bits of math_trig's. The loops have neither a call that stays
// nor a branch, so that a compiler can take two angles at a time. A few angles go through both series in one loop. Of
// sixteen each step of a series is a loop of its own, so that many quotients are under way, and six of them are no divisions.
#![tactic(auto)]

ghost use Rattle.std.specs.Prelude.{◌≡◌, ◌≤◌};
ghost use Rattle.ieee.specs.Functions.{one, minus_one, clamp};
ghost use Rattle.math_trig.specs.Trig as Trig;
ghost use Rattle.math_trig.specs.Internal.{near_line};
ghost use Rattle.math_waves.specs.Waves.{written, each_first, each};
ghost use Rattle.math_waves.specs.Internal.{turned, near, near_sin, near_cos, all_near, near_fold, near_square, at, step, quick_step, stepped, first_sin, first_cos, last_sin, last_cos, sin_end, cos_end, quick_sin, quick_cos};

use ieee_quotient::{
    ABOVE_6, ABOVE_12, ABOVE_20, ABOVE_72, ABOVE_132, ABOVE_272, BELOW_6, BELOW_12, BELOW_20,
    BELOW_72, BELOW_132, BELOW_272,
};

// cos of the folded angle r from c, that of sin's second fold of it: beyond π/2 it changes its sign.
fn turned(r: f64, c: f64) -> f64
    ensures { result ≡ turned r c }
{
    if r > math_trig::HALF_PI {
        -c
    } else if r < -math_trig::HALF_PI {
        -c
    } else {
        c
    }
}

// Whether an angle is below 2^20 in size, and r, what its first line leaves, within -π..π: seldom is it not.
fn near(x: f64, r: f64) -> bool
    ensures { result ≡ near x r }
{
    ((x < 1048576.0) & (-1048576.0 < x)) & (!(r > math_trig::PI) & !(r < -math_trig::PI))
}

// The sines and cosines of the first n angles where all are near, and whether they are. cos has the argument of sin up to its
// sign, so one square serves both.
fn at_once(x: &[f64; 16], n: usize, sin: &mut [f64; 16], cos: &mut [f64; 16]) -> bool
    requires { n ≤ 16 }
    ensures { (result ≡ all_near x.now n) × (sin.new ≡ each_first near_sin x.now n sin.old) × (cos.new ≡ each_first near_cos x.now n cos.old) }
{
    let mut all = true;
    for i in 0..n {
        let angle = x[i];
        let r = math_trig::near_line(angle);
        all = all & near(angle, r);
        let a = math_trig::second_fold(r);
        let p = math_trig::both_series(a * a);
        sin[i] = ieee::clamp(a * p.sin, -1.0, 1.0);
        cos[i] = turned(r, ieee::clamp(p.cos, -1.0, 1.0));
    }
    all
}

// The first lines of the first n angles, sin's second folds of them, and the squares; and whether all are near.
fn folds(x: &[f64; 16], n: usize, r: &mut [f64; 16], a: &mut [f64; 16], z: &mut [f64; 16]) -> bool
    requires { n ≤ 16 }
    ensures { (result ≡ all_near x.now n) × (r.new ≡ each_first near_line x.now n r.old) × (a.new ≡ each_first near_fold x.now n a.old) × (z.new ≡ each_first near_square x.now n z.old) }
{
    let mut all = true;
    for i in 0..n {
        let angle = x[i];
        let rest = math_trig::near_line(angle);
        all = all & near(angle, rest);
        let folded = math_trig::second_fold(rest);
        r[i] = rest;
        a[i] = folded;
        z[i] = folded * folded;
    }
    all
}

// One step of a series for the first n squares.
fn step(z: &[f64; 16], n: usize, c: f64, p: &mut [f64; 16])
    requires { n ≤ 16 }
    ensures { p.new ≡ stepped (step c) z.now n p.old }
{
    for i in 0..n {
        p[i] = 1.0 - (p[i] * z[i]) / c;
    }
}

// The same by c = a + b without a division; y is just below 1/c, and u just above.
fn quick_step(z: &[f64; 16], n: usize, a: f64, b: f64, y: f64, u: f64, p: &mut [f64; 16])
    requires { n ≤ 16 }
    ensures { p.new ≡ stepped (quick_step a b y u) z.now n p.old }
{
    for i in 0..n {
        p[i] = 1.0 - ieee_quotient::quick(p[i] * z[i], a, b, y, u);
    }
}

// From -1 to 1.
fn to_one(x: f64) -> f64
    ensures { result ≡ clamp x minus_one one }
{
    let least = if x < -1.0 { -1.0 } else { x };
    if least > 1.0 { 1.0 } else { least }
}

// The sines and cosines of the first n angles, from both series.
fn ends(
    r: &[f64; 16],
    a: &[f64; 16],
    s: &[f64; 16],
    c: &[f64; 16],
    n: usize,
    sin: &mut [f64; 16],
    cos: &mut [f64; 16],
)
    requires { n ≤ 16 }
    ensures { (sin.new ≡ written (λ i. sin_end (at a.now i) (at s.now i)) n sin.old) × (cos.new ≡ written (λ i. cos_end (at r.now i) (at c.now i)) n cos.old) }
{
    for i in 0..n {
        sin[i] = to_one(a[i] * s[i]);
        cos[i] = turned(r[i], to_one(c[i]));
    }
}

// The steps of both series down to a divisor of 156, for the first n squares.
fn first_steps(z: &[f64; 16], n: usize, s: &mut [f64; 16], c: &mut [f64; 16])
    requires { n ≤ 16 }
    ensures { (s.new ≡ stepped first_sin z.now n s.old) × (c.new ≡ stepped first_cos z.now n c.old) }
{
    step(z, n, 462.0, c);
    step(z, n, 420.0, s);
    step(z, n, 380.0, c);
    step(z, n, 342.0, s);
    step(z, n, 306.0, c);
    quick_step(z, n, 256.0, 16.0, BELOW_272, ABOVE_272, s);
    step(z, n, 240.0, c);
    step(z, n, 210.0, s);
    step(z, n, 182.0, c);
    step(z, n, 156.0, s);
}

// The other steps.
fn last_steps(z: &[f64; 16], n: usize, s: &mut [f64; 16], c: &mut [f64; 16])
    requires { n ≤ 16 }
    ensures { (s.new ≡ stepped last_sin z.now n s.old) × (c.new ≡ stepped last_cos z.now n c.old) }
{
    quick_step(z, n, 128.0, 4.0, BELOW_132, ABOVE_132, c);
    step(z, n, 110.0, s);
    step(z, n, 90.0, c);
    quick_step(z, n, 64.0, 8.0, BELOW_72, ABOVE_72, s);
    step(z, n, 56.0, c);
    step(z, n, 42.0, s);
    step(z, n, 30.0, c);
    quick_step(z, n, 16.0, 4.0, BELOW_20, ABOVE_20, s);
    quick_step(z, n, 8.0, 4.0, BELOW_12, ABOVE_12, c);
    quick_step(z, n, 4.0, 2.0, BELOW_6, ABOVE_6, s);
    step(z, n, 2.0, c);
}

// As at_once, but step by step, each for all angles.
fn in_steps(x: &[f64; 16], n: usize, sin: &mut [f64; 16], cos: &mut [f64; 16]) -> bool
    requires { n ≤ 16 }
    ensures { (result ≡ all_near x.now n) × (sin.new ≡ each_first quick_sin x.now n sin.old) × (cos.new ≡ each_first quick_cos x.now n cos.old) }
{
    let mut r = [1.0; 16];
    let mut a = [1.0; 16];
    let mut z = [1.0; 16];
    let mut s = [1.0; 16];
    let mut c = [1.0; 16];
    let all = folds(x, n, &mut r, &mut a, &mut z);
    first_steps(&z, n, &mut s, &mut c);
    last_steps(&z, n, &mut s, &mut c);
    ends(&r, &a, &s, &c, n, sin, cos);
    all
}

// The first n angles one by one, of any size.
fn one_by_one(x: &[f64; 16], n: usize, sin: &mut [f64; 16], cos: &mut [f64; 16])
    requires { n ≤ 16 }
    ensures { (sin.new ≡ each_first Trig.sin x.now n sin.old) × (cos.new ≡ each_first Trig.cos x.now n cos.old) }
{
    for i in 0..n {
        let waves = math_trig::sin_cos(x[i]);
        sin[i] = waves.sin;
        cos[i] = waves.cos;
    }
}

// The sines and cosines of the first n of 16 angles, of all where n is more; the other places stay as they are.
pub fn sin_cos(x: &[f64; 16], n: usize, sin: &mut [f64; 16], cos: &mut [f64; 16])
    ensures { (sin.new ≡ each Trig.sin x.now n sin.old) × (cos.new ≡ each Trig.cos x.now n cos.old) }
{
    let few = if n < 16 { n } else { 16 };
    if few % 16 == 0 {
        if !in_steps(x, few, sin, cos) {
            one_by_one(x, few, sin, cos);
        }
    } else if !at_once(x, few, sin, cos) {
        one_by_one(x, few, sin, cos);
    }
}
