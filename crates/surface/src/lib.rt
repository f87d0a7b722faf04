// The answers of one surface of a train: document 01's section 7.
#![tactic(auto)]

ghost use Rattle.std.specs.Prelude.{◌≡◌};
ghost use Rattle.math_trig.specs.Trig as Trig;
ghost use Rattle.refusal.specs.Outcome.{outcome};
ghost use Rattle.surface.specs.Answers.{assembled, coated_powers, coated_answers, bare_powers, bare_answers};

use gate_limits::Surface;
use polarization::SurfaceJones;
use polarization_mueller::{JonesMatrix, MuellerMatrix};
use refusal::Refusal;
use thin_film_solver::CoatingResponse;

// The parts of the s and p power that a surface reflects and transmits.
#[derive(Clone, Copy)]
pub struct Powers {
    pub reflectance_s: f64,
    pub reflectance_p: f64,
    pub transmittance_s: f64,
    pub transmittance_p: f64,
}

// A surface's answers. A bare surface has no response: every number of it is zero.
#[derive(Clone, Copy)]
pub struct Answers {
    pub coated: bool,
    pub powers: Powers,
    pub response: CoatingResponse,
    pub reflection: JonesMatrix,
    pub transmission: JonesMatrix,
    pub reflection_mueller: MuellerMatrix,
    pub transmission_mueller: MuellerMatrix,
}

fn assembled(
    coated: bool,
    powers: Powers,
    response: CoatingResponse,
    jones: SurfaceJones,
) -> Answers
    ensures { result ≡ assembled coated powers response jones }
{
    let reflection = jones.reflection;
    let transmission = jones.transmission;
    let reflection_mueller = reflection.to_mueller();
    let transmission_mueller = transmission.to_mueller();
    Answers {
        coated,
        powers,
        response,
        reflection,
        transmission,
        reflection_mueller,
        transmission_mueller,
    }
}

// The powers of a coated surface, from its response.
pub fn coated_powers(response: CoatingResponse) -> Powers
    ensures { result ≡ coated_powers response }
{
    Powers {
        reflectance_s: response.reflectance_s,
        reflectance_p: response.reflectance_p,
        transmittance_s: response.transmittance_s,
        transmittance_p: response.transmittance_p,
    }
}

// The answers of a coated surface, from its response.
pub fn coated_answers(response: CoatingResponse) -> Answers
    ensures { result ≡ coated_answers response }
{
    assembled(
        true,
        coated_powers(response),
        response,
        polarization::surface_coating_jones(response),
    )
}

// The powers of a bare surface, whatever its code, from the cosine of its angle.
pub fn bare_powers_with(surface: Surface, cos: f64) -> Powers
    ensures { cos ≡ Trig.cos surface.angle_rad → result ≡ bare_powers surface }
{
    let r = fresnel::fresnel_dielectric(cos, surface.n_incident, surface.n_substrate);
    Powers {
        reflectance_s: r.rs,
        reflectance_p: r.rp,
        transmittance_s: 1.0 - r.rs,
        transmittance_p: 1.0 - r.rp,
    }
}

pub fn bare_powers(surface: Surface) -> Powers
    ensures { result ≡ bare_powers surface }
{
    bare_powers_with(surface, math_trig::cos(surface.angle_rad))
}

// The answers of a bare surface, whatever its code.
pub fn bare_answers(surface: Surface) -> Result<Answers, Refusal>
    ensures { outcome result ≡ bare_answers surface }
{
    let jones = polarization::surface_fresnel_jones(
        surface.n_incident,
        surface.n_substrate,
        surface.angle_rad,
    )?;
    let powers = bare_powers(surface);
    Ok(assembled(false, powers, thin_film_solver::no_response(), jones))
}
