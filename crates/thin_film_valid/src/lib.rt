// What an evaluation asks and answers before any layer is read: the tests of its numbers, and the
// responses of the ideal coatings.
#![tactic(auto)]

ghost use Rattle.std.specs.Prelude.{◌≡◌};
ghost use Rattle.thin_film_valid.specs.Valid.{valid};
ghost use Rattle.thin_film_valid.specs.Ideal.{ideal_ar, mirrored, ideal_mirror, ideal_beamsplitter};

use thin_film_complex::Complex;
use thin_film_solver::{CoatingResponse, Polarized};

// The seven tests of evaluate: what fails one is InvalidParameter.
pub fn valid(n_incident: f64, n_substrate: f64, angle_incident_rad: f64, wavelength_nm: f64) -> bool
    ensures { result ≡ valid n_incident n_substrate angle_incident_rad wavelength_nm }
{
    if !ieee::finite_positive(n_incident) {
        return false;
    }
    if !ieee::finite_positive(n_substrate) {
        return false;
    }
    ieee::is_finite(angle_incident_rad) && ieee::finite_positive(wavelength_nm)
}

pub fn ideal_ar() -> CoatingResponse
    ensures { result ≡ ideal_ar }
{
    let clear = Polarized {
        r: Complex::zero(),
        t: Complex::real(1.0),
        reflectance: 0.0,
        transmittance: 1.0,
        phase: 0.0,
    };
    thin_film_solver::respond(clear, clear)
}

// r and its phase, and nothing transmitted.
fn mirrored(r: f64, phase: f64) -> Polarized
    ensures { result ≡ mirrored r phase }
{
    Polarized {
        r: Complex::real(r),
        t: Complex::zero(),
        reflectance: 1.0,
        transmittance: 0.0,
        phase,
    }
}

pub fn ideal_mirror() -> CoatingResponse
    ensures { result ≡ ideal_mirror }
{
    let s = mirrored(-1.0, 3.141592653589793);
    let p = mirrored(1.0, 0.0);
    thin_film_solver::respond(s, p)
}

pub fn ideal_beamsplitter() -> CoatingResponse
    ensures { result ≡ ideal_beamsplitter }
{
    let amp = Complex::real(math_sqrt::sqrt(0.5));
    let halved = Polarized {
        r: amp,
        t: amp,
        reflectance: 0.5,
        transmittance: 0.5,
        phase: 0.0,
    };
    thin_film_solver::respond(halved, halved)
}
