// The characteristic matrix of one film, and products of such matrices: thin_film.rs's mat_mul_2x2
// and the body of the loop in its evaluate_tmm_multilayer.
#![tactic(auto)]

ghost use Rattle.std.specs.Prelude.{◌≡◌};
ghost use Rattle.math_exp.specs.Exp.{exp};
ghost use Rattle.thin_film_complex.specs.Complex.{◌⊠◌, ◌⧄◌};
ghost use Rattle.thin_film_matrix.specs.Matrix.{matrix, dot, mat_mul, identity};
ghost use Rattle.thin_film_matrix.specs.Film.{cos_theta, cos_delta, i_sin_delta};

use thin_film_complex::Complex;

// ---- matrices

// a b + c d
pub fn dot(a: Complex, b: Complex, c: Complex, d: Complex) -> Complex
    ensures { result ≡ dot a b c d }
{
    a.mul(b).add(c.mul(d))
}

pub fn mat_mul_2x2(a: [[Complex; 2]; 2], b: [[Complex; 2]; 2]) -> [[Complex; 2]; 2]
    ensures { result ≡ mat_mul a b }
{
    [
        [
            dot(a[0][0], b[0][0], a[0][1], b[1][0]),
            dot(a[0][0], b[0][1], a[0][1], b[1][1]),
        ],
        [
            dot(a[1][0], b[0][0], a[1][1], b[1][0]),
            dot(a[1][0], b[0][1], a[1][1], b[1][1]),
        ],
    ]
}

// Before the first layer.
pub fn identity() -> [[Complex; 2]; 2]
    ensures { result ≡ identity }
{
    let one = Complex::real(1.0);
    let zero = Complex::zero();
    [[one, zero], [zero, one]]
}

// ---- one film

// cos(theta) in a film of index n_c; snell is n_incident * sin_theta0.
pub fn cos_theta(snell: f64, n_c: Complex) -> Complex
    ensures { result ≡ cos_theta snell n_c }
{
    let sin_theta = Complex::real(snell).div(n_c);
    Complex::real(1.0).sub(sin_theta.mul(sin_theta)).sqrt()
}

// cos(delta) and i sin(delta) of a phase thickness.
#[derive(Clone, Copy)]
pub struct Phase {
    pub cos: Complex,
    pub i_sin: Complex,
}

// e^x, at once where x is a zero.
pub fn exp_of(x: f64) -> f64
    ensures { result ≡ exp x }
{
    if x == 0.0 { 1.0 } else { math_exp::exp(x) }
}

// Both exponentials from one sine and one cosine: -sin(x) stands for sin(-x). Where these differ,
// both are zeros, and the sum and the difference of the exponentials have the same bits.
pub fn phase_of(delta: Complex) -> Phase
    ensures { result ≡ record { cos = cos_delta delta; i_sin = i_sin_delta delta } }
{
    let y = math_trig::sin_cos(delta.re);
    let pos = exp_of(-delta.im);
    let neg = exp_of(delta.im);
    let exp_pos = Complex::new(pos * y.cos, pos * y.sin);
    let exp_neg = Complex::new(neg * y.cos, neg * -y.sin);
    let cos_delta = exp_pos.add(exp_neg).scale(0.5);
    let sin_delta = exp_pos.sub(exp_neg).mul(Complex::new(0.0, -0.5));
    Phase {
        cos: cos_delta,
        i_sin: Complex::new(-sin_delta.im, sin_delta.re),
    }
}

// The characteristic matrix of a film of admittance eta.
pub fn characteristic(phase: Phase, eta: Complex) -> [[Complex; 2]; 2]
    ensures { result ≡ matrix phase.cos (phase.i_sin ⧄ eta) (phase.i_sin ⊠ eta) phase.cos }
{
    let cos = phase.cos;
    let i_sin = phase.i_sin;
    [[cos, i_sin.div(eta)], [i_sin.mul(eta), cos]]
}
