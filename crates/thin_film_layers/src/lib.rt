// An evaluation before and while its layers are read: which are, and from which end; and the loop over
// the caller's own list of them.
#![tactic(auto)]

ghost use Rattle.std.specs.Prelude.{◌≡◌};
ghost use Rattle.thin_film_solver.specs.Solve as Solve;
ghost use Rattle.thin_film_solver.specs.Internal.{terms_of};
ghost use Rattle.thin_film_layers.specs.Internal as Internal;
ghost use Rattle.refusal.specs.Outcome.{outcome};

use refusal::Refusal;
use thin_film_complex::Complex;
use thin_film_solver::{CoatingResponse, Incidence, Terms, ThinFilmLayer};

// An evaluation before any layer is read: it is answered, or the layers beside the coating are all to
// be read, in their order or reversed.
#[derive(Clone, Copy)]
pub enum Prepared {
    Answered(Result<CoatingResponse, Refusal>),
    Layers { reversed: bool, light: Incidence },
}

// The index of the i-th layer that is read, of n.
pub fn nth_index(reversed: bool, n: usize, i: usize) -> usize
    ensures { result ≡ Internal.nth_index reversed n i }
{
    if reversed {
        if i < n { n - 1 - i } else { 0 }
    } else {
        i
    }
}

// ---- the caller's list

// How many of n layers are read: all or none.
fn read_count(prepared: Prepared, n: usize) -> usize
    ensures { result ≡ Internal.read_count prepared n }
{
    match prepared {
        Prepared::Answered(_) => 0,
        Prepared::Layers {
            reversed: _,
            light: _,
        } => n,
    }
}

// The index of the i-th that is read, of n.
fn read_index(prepared: Prepared, n: usize, i: usize) -> usize
    ensures { result ≡ Internal.nth_index (Internal.reversed_in prepared) n i }
{
    match prepared {
        Prepared::Answered(_) => i,
        Prepared::Layers { reversed, light: _ } => nth_index(reversed, n, i),
    }
}

// The terms of a layer; where none is read, of no light.
fn read_terms(prepared: Prepared, layer: ThinFilmLayer) -> Terms
    ensures { result ≡ terms_of (Internal.light_in prepared).snell (Internal.light_in prepared).wavelength_nm layer }
{
    match prepared {
        Prepared::Answered(_) => {
            let dark = Incidence {
                n_incident: 0.0,
                n_substrate: 0.0,
                cos_theta0: 0.0,
                snell: 0.0,
                wavelength_nm: 0.0,
            };
            thin_film_solver::terms_of(dark, layer)
        }
        Prepared::Layers { reversed: _, light } => thin_film_solver::terms_of(light, layer),
    }
}

// The answer, once the layers are read.
fn conclude(
    prepared: Prepared,
    ms: [[Complex; 2]; 2],
    mp: [[Complex; 2]; 2],
) -> Result<CoatingResponse, Refusal>
    ensures { result ≡ Internal.concluded prepared ms mp }
{
    match prepared {
        Prepared::Answered(answer) => answer,
        Prepared::Layers { reversed: _, light } => Ok(thin_film_solver::finish(light, ms, mp)),
    }
}

// The answer for the caller's list of layers: the one loop over it.
pub fn evaluate_list(
    layers: &[ThinFilmLayer],
    prepared: Prepared,
) -> Result<CoatingResponse, Refusal>
    ensures { outcome result ≡ Internal.read_from prepared layers.now }
{
    let n = read_count(prepared, layers.len());
    let mut ms = thin_film_matrix::identity();
    let mut mp = thin_film_matrix::identity();
    for i in 0..n {
        let j = read_index(prepared, n, i);
        let terms = read_terms(prepared, layers[j]);
        let next_s = thin_film_solver::step_s(ms, terms);
        let next_p = thin_film_solver::step_p(mp, terms);
        ms = next_s;
        mp = next_p;
    }
    conclude(prepared, ms, mp)
}

// Every layer, in the order of the list.
fn all_layers(
    n_incident: f64,
    n_substrate: f64,
    angle_incident_rad: f64,
    wavelength_nm: f64,
) -> Prepared
    ensures { result ≡ Internal.all_layers n_incident n_substrate angle_incident_rad wavelength_nm }
{
    let light = Incidence::new(n_incident, n_substrate, angle_incident_rad, wavelength_nm);
    Prepared::Layers {
        reversed: false,
        light,
    }
}

// The response of an evaluation that is not refused.
fn response(evaluation: Result<CoatingResponse, Refusal>) -> CoatingResponse
    ensures { result ≡ Internal.response evaluation }
{
    match evaluation {
        Ok(r) => r,
        Err(_) => thin_film_solver::no_response(),
    }
}

// The solver on any list of layers, from the incident medium to the substrate.
pub fn evaluate_tmm_multilayer(
    n_incident: f64,
    n_substrate: f64,
    angle_incident_rad: f64,
    wavelength_nm: f64,
    layers: &[ThinFilmLayer],
) -> CoatingResponse
    ensures { result ≡ Solve.evaluate n_incident n_substrate angle_incident_rad wavelength_nm layers.now }
{
    response(evaluate_list(
        layers,
        all_layers(n_incident, n_substrate, angle_incident_rad, wavelength_nm),
    ))
}
