// exp as document 01's section 2 gives it, for every f64.
#![tactic(auto)]

ghost use Rattle.std.specs.Prelude.{◌≡◌};
ghost use Rattle.ieee.specs.Functions.{one};
ghost use Rattle.math_exp.specs.Exp.{exp_series, squares, exp};

fn exp_series(y: f64) -> f64
    ensures { result ≡ exp_series 14 y one }
{
    let p = 1.0;
    let p = 1.0 + (y * p) / 14.0;
    let p = 1.0 + (y * p) / 13.0;
    let p = 1.0 + (y * p) / 12.0;
    let p = 1.0 + (y * p) / 11.0;
    let p = 1.0 + (y * p) / 10.0;
    let p = 1.0 + (y * p) / 9.0;
    let p = 1.0 + (y * p) / 8.0;
    let p = 1.0 + (y * p) / 7.0;
    let p = 1.0 + (y * p) / 6.0;
    let p = 1.0 + (y * p) / 5.0;
    let p = 1.0 + (y * p) / 4.0;
    let p = 1.0 + (y * p) / 3.0;
    let p = 1.0 + (y * p) / 2.0;
    1.0 + (y * p) / 1.0
}

// p to the power 1024: p = p * p, ten times.
fn squares(p: f64) -> f64
    ensures { result ≡ squares 10 p }
{
    let p = p * p;
    let p = p * p;
    let p = p * p;
    let p = p * p;
    let p = p * p;
    let p = p * p;
    let p = p * p;
    let p = p * p;
    let p = p * p;
    p * p
}

pub fn exp(x: f64) -> f64
    ensures { result ≡ exp x }
{
    if x != x {
        x
    } else if x > 710.0 {
        1.0 / 0.0
    } else if x < -746.0 {
        0.0
    } else {
        squares(exp_series(x / 1024.0))
    }
}
