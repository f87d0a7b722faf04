// The answers of a surface of a sheet, from the sheet's bytes: document 01, section 7. The SURFACE's kind
// word is at a place and n layers follow it; neither need be so: past the last word every word is zero.
#![tactic(auto)]

ghost use Rattle.std.specs.Prelude.{◌≡◌};
ghost use Rattle.sheet.specs.Internal.{next_place, place_on, layer_at, layers_at};
ghost use Rattle.sheet_values.specs.Values.{film, films};
ghost use Rattle.math_trig.specs.Trig.{sin_cos};
ghost use Rattle.thin_film_solver.specs.Internal.{solved};
ghost use Rattle.thin_film_layers.specs.Evaluation.{ordered};
ghost use Rattle.thin_film.specs.Evaluate.{evaluate_surface};
ghost use Rattle.surface.specs.Answers.{answers, powers};
ghost use Rattle.refusal.specs.Outcome.{outcome};

use gate_limits::Surface;
use math_trig::SinCos;
use refusal::Refusal;
use surface::{Answers, Powers};
use thin_film::{SurfaceCoating, reading};
use thin_film_layers::Prepared;
use thin_film_solver::{CoatingResponse, Incidence, ThinFilmLayer};

mod quick;

// The j-th layer after the block at a place, at a wavelength.
pub fn layer_after(src: &[u8], at: usize, j: usize, wavelength_nm: f64) -> ThinFilmLayer
    ensures { result ≡ film wavelength_nm (layer_at src.now (place_on src.now (next_place src.now at) j)) }
{
    let place = sheet::place_on(src, sheet::next_place(src, at), j);
    sheet_values::layer_at(src, place, wavelength_nm)
}

// The response with the n layers after the block at a place, in their order or reversed, at a wavelength.
fn solve(
    src: &[u8],
    at: usize,
    n: usize,
    reversed: bool,
    wavelength_nm: f64,
    light: Incidence,
) -> CoatingResponse
    ensures { result ≡ solved light (ordered reversed (films wavelength_nm (layers_at src.now (next_place src.now at) n))) }
{
    let mut ms = thin_film_matrix::identity();
    let mut mp = thin_film_matrix::identity();
    for i in 0..n {
        let j = thin_film_layers::nth_index(reversed, n, i);
        let terms = thin_film_solver::terms_of(light, layer_after(src, at, j, wavelength_nm));
        let next_s = thin_film_solver::step_s(ms, terms);
        let next_p = thin_film_solver::step_p(mp, terms);
        ms = next_s;
        mp = next_p;
    }
    thin_film_solver::finish(light, ms, mp)
}

// A coated surface. A preset coating has layers of its own, and Custom(Multilayer) those after the block.
fn evaluate_at(
    src: &[u8],
    at: usize,
    n: usize,
    surface: Surface,
    coating: SurfaceCoating,
    wavelength_nm: f64,
) -> Result<CoatingResponse, Refusal>
    ensures { outcome result ≡ evaluate_surface coating (films wavelength_nm (layers_at src.now (next_place src.now at) n)) surface.n_incident surface.n_substrate surface.angle_rad wavelength_nm }
{
    match reading::prepare(
        coating,
        n,
        surface.n_incident,
        surface.n_substrate,
        surface.angle_rad,
        wavelength_nm,
    ) {
        Prepared::Answered(answer) => answer,
        Prepared::Layers { reversed, light } => Ok(quick::response_with(
            src,
            at,
            n,
            coating,
            reversed,
            wavelength_nm,
            light,
        )),
    }
}

// The powers of the surface at a place with the n layers after it.
pub fn powers_at(
    src: &[u8],
    at: usize,
    n: usize,
    surface: Surface,
    wavelength_nm: f64,
) -> Result<Powers, Refusal>
    ensures { outcome result ≡ powers wavelength_nm surface (films wavelength_nm (layers_at src.now (next_place src.now at) n)) }
{
    match gate_limits::interface_of(surface.coating) {
        None => Ok(surface::bare_powers(surface)),
        Some(coating) => quick::coated_powers(src, at, n, surface, coating, wavelength_nm),
    }
}

// The same from the sine and the cosine of its angle.
pub fn powers_with_angle(
    src: &[u8],
    at: usize,
    n: usize,
    surface: Surface,
    theta: SinCos,
    wavelength_nm: f64,
) -> Result<Powers, Refusal>
    ensures { theta ≡ sin_cos surface.angle_rad → outcome result ≡ powers wavelength_nm surface (films wavelength_nm (layers_at src.now (next_place src.now at) n)) }
{
    if surface.coating == 0 {
        return Ok(surface::bare_powers_with(surface, theta.cos));
    }
    if surface.coating == 5 {
        return quick::custom_powers(src, at, n, surface, theta, wavelength_nm);
    }
    powers_at(src, at, n, surface, wavelength_nm)
}

// The answers of the surface at a place with the n layers after it.
pub fn answers_at(
    src: &[u8],
    at: usize,
    n: usize,
    surface: Surface,
    wavelength_nm: f64,
) -> Result<Answers, Refusal>
    ensures { outcome result ≡ answers wavelength_nm surface (films wavelength_nm (layers_at src.now (next_place src.now at) n)) }
{
    match gate_limits::interface_of(surface.coating) {
        None => surface::bare_answers(surface),
        Some(coating) => {
            let response = evaluate_at(src, at, n, surface, coating, wavelength_nm)?;
            Ok(surface::coated_answers(response))
        }
    }
}
