// The Jones matrices of a surface, coated or bare, as polarization.rs has them.
#![tactic(auto)]

ghost use Rattle.std.specs.Prelude.{◌≡◌};
ghost use Rattle.refusal.specs.Outcome.{outcome};
ghost use Rattle.thin_film_complex.specs.Complex.{real};
ghost use Rattle.polarization_mueller.specs.Jones.{diattenuator};
ghost use Rattle.polarization.specs.Surface.{surface_coating_jones, indices_valid, excess, phase_factor, totally_reflected, cos_t, refracted, bare, surface_fresnel_jones};

use polarization_mueller::JonesMatrix;
use refusal::Refusal;
use thin_film_complex::Complex;
use thin_film_solver::CoatingResponse;

// What a surface does to the reflected and to the transmitted light.
#[derive(Clone, Copy)]
pub struct SurfaceJones {
    pub reflection: JonesMatrix,
    pub transmission: JonesMatrix,
}

pub fn surface_coating_jones(coating: CoatingResponse) -> SurfaceJones
    ensures { result ≡ surface_coating_jones coating }
{
    let rs = coating.rs;
    let rp = coating.rp;
    let ts = coating.ts;
    let tp = coating.tp;
    let reflection = JonesMatrix::diattenuator(rs, rp);
    let transmission = JonesMatrix::diattenuator(ts, tp);
    SurfaceJones {
        reflection,
        transmission,
    }
}

// The five tests of surface_fresnel_jones: what fails one is InvalidParameter.
fn indices_valid(n1: f64, n2: f64, angle_i_rad: f64) -> bool
    ensures { result ≡ indices_valid n1 n2 angle_i_rad }
{
    if !ieee::finite_positive(n1) {
        return false;
    }
    ieee::finite_positive(n2) && ieee::is_finite(angle_i_rad)
}

// sqrt(sin_i^2 - (n2 / n1)^2)
fn excess(n1: f64, n2: f64, sin_i: f64) -> f64
    ensures { result ≡ excess n1 n2 sin_i }
{
    math_sqrt::sqrt(sin_i * sin_i - ieee::powi2(n2 / n1))
}

// cos + i sin of a phase.
fn phase_factor(phase: f64) -> Complex
    ensures { result ≡ phase_factor phase }
{
    let p = math_trig::sin_cos(phase);
    Complex::new(p.cos, p.sin)
}

// rs and rp have magnitude 1 and a phase; nothing is transmitted.
fn totally_reflected(n1: f64, n2: f64, sin_i: f64, cos_i: f64) -> SurfaceJones
    ensures { result ≡ totally_reflected n1 n2 sin_i cos_i }
{
    let excess = excess(n1, n2, sin_i);
    let rs_phase = -2.0 * math_atan::atan(excess / cos_i);
    let rp_phase = -2.0 * math_atan::atan(ieee::powi2(n1 / n2) * excess / cos_i);
    let reflection = JonesMatrix::diattenuator(phase_factor(rs_phase), phase_factor(rp_phase));
    let transmission = JonesMatrix::diattenuator(Complex::zero(), Complex::zero());
    SurfaceJones {
        reflection,
        transmission,
    }
}

// The refracted ray's cosine.
fn cos_t(sin_t: f64) -> f64
    ensures { result ≡ cos_t sin_t }
{
    math_sqrt::sqrt(ieee::max(1.0 - sin_t * sin_t, 0.0))
}

// A real diagonal matrix.
fn real_diattenuator(tx: f64, ty: f64) -> JonesMatrix
    ensures { result ≡ diattenuator (real tx) (real ty) }
{
    JonesMatrix::diattenuator(Complex::real(tx), Complex::real(ty))
}

fn refracted(n1: f64, n2: f64, cos_i: f64, cos_t: f64) -> SurfaceJones
    ensures { result ≡ refracted n1 n2 cos_i cos_t }
{
    let rs = (n1 * cos_i - n2 * cos_t) / (n1 * cos_i + n2 * cos_t);
    let rp = (n2 * cos_i - n1 * cos_t) / (n2 * cos_i + n1 * cos_t);
    let ts = (2.0 * n1 * cos_i) / (n1 * cos_i + n2 * cos_t);
    let tp = (2.0 * n1 * cos_i) / (n2 * cos_i + n1 * cos_t);
    let reflection = real_diattenuator(rs, rp);
    let transmission = real_diattenuator(ts, tp);
    SurfaceJones {
        reflection,
        transmission,
    }
}

// Total internal reflection where the refracted sine is above 1 in size, not at 1.
fn bare(n1: f64, n2: f64, sin_i: f64, cos_i: f64) -> SurfaceJones
    ensures { result ≡ bare n1 n2 sin_i cos_i }
{
    let sin_t = (n1 * sin_i) / n2;
    if ieee::abs(sin_t) > 1.0 {
        return totally_reflected(n1, n2, sin_i, cos_i);
    }
    refracted(n1, n2, cos_i, cos_t(sin_t))
}

// The matrices of a bare dielectric surface. Indices that are not finite and above zero, and an angle
// that is not finite, are refused with 1.
pub fn surface_fresnel_jones(n1: f64, n2: f64, angle_i_rad: f64) -> Result<SurfaceJones, Refusal>
    ensures { outcome result ≡ surface_fresnel_jones n1 n2 angle_i_rad }
{
    if !indices_valid(n1, n2, angle_i_rad) {
        return Err(Refusal::InvalidParameter);
    }
    let i = math_trig::sin_cos(angle_i_rad);
    Ok(bare(n1, n2, i.sin, i.cos))
}
