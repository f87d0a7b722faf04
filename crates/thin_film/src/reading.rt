// SurfaceCoating::evaluate, up to the layers; and the layers of a preset coating, one by one.
ghost use Rattle.std.specs.Prelude.{◌≡◌, List, [], ◌<◌, length, get_or};
ghost use Rattle.thin_film_solver.specs.declared.ThinFilmLayer.{ThinFilmLayer};
ghost use Rattle.thin_film_solver.specs.Internal.{solved};
ghost use Rattle.thin_film_layers.specs.Evaluation.{ordered, no_layer};
ghost use Rattle.thin_film_layers.specs.Internal.{read_from};
ghost use Rattle.thin_film.specs.Coating.{coating_of, layers_of};
ghost use Rattle.thin_film.specs.Evaluate.{evaluate_surface};
ghost use Rattle.thin_film.specs.Internal.{layer_count, prepared, answered_own};

use crate::SurfaceCoating;
use thin_film_coating::Coating;
use thin_film_layers::Prepared;
use thin_film_solver::{CoatingResponse, Incidence, ThinFilmLayer};

// ---- preset coatings

// How many layers of its own a coating has: a preset has some, and any other has those beside it alone.
pub fn own_count(coating: SurfaceCoating) -> usize
    ensures { result ≡ length (layers_of coating []) }
{
    match coating {
        SurfaceCoating::IdealAr => 0,
        SurfaceCoating::MgF2 {
            design_wavelength_nm: _,
        } => 1,
        SurfaceCoating::BroadbandAr => 4,
        SurfaceCoating::HighReflectanceMirror => 15,
        SurfaceCoating::Custom(_) => 0,
    }
}

// The i-th of them, where there is one.
fn nth_own(coating: SurfaceCoating, i: usize) -> ThinFilmLayer
    requires { i < length (layers_of coating []) }
    ensures { result ≡ get_or (layers_of coating []) i no_layer }
{
    match coating {
        SurfaceCoating::IdealAr => ThinFilmLayer::dielectric(0.0, 0.0),
        SurfaceCoating::MgF2 {
            design_wavelength_nm,
        } => thin_film_presets::quarter_wave(1.38, design_wavelength_nm),
        SurfaceCoating::BroadbandAr => thin_film_presets::broadband(i),
        SurfaceCoating::HighReflectanceMirror => thin_film_presets::bragg(2.30, 1.46, 550.0, i),
        SurfaceCoating::Custom(_) => ThinFilmLayer::dielectric(0.0, 0.0),
    }
}

// The i-th of them; past the last there is no layer.
pub fn own_layer(coating: SurfaceCoating, i: usize) -> ThinFilmLayer
    ensures { result ≡ get_or (layers_of coating []) i no_layer }
{
    if i < own_count(coating) {
        nth_own(coating, i)
    } else {
        ThinFilmLayer::dielectric(0.0, 0.0)
    }
}

// The response with a coating's own layers, in their order or reversed.
pub fn solve_own(coating: SurfaceCoating, reversed: bool, light: Incidence) -> CoatingResponse
    ensures { result ≡ solved light (ordered reversed (layers_of coating [])) }
{
    let n = own_count(coating);
    let mut ms = thin_film_matrix::identity();
    let mut mp = thin_film_matrix::identity();
    for i in 0..n {
        let j = thin_film_layers::nth_index(reversed, n, i);
        let terms = thin_film_solver::terms_of(light, own_layer(coating, j));
        let next_s = thin_film_solver::step_s(ms, terms);
        let next_p = thin_film_solver::step_p(mp, terms);
        ms = next_s;
        mp = next_p;
    }
    thin_film_solver::finish(light, ms, mp)
}

// ---- an evaluation

// to_coating, without the layers.
fn coating_of(coating: SurfaceCoating) -> Coating
    ensures { result ≡ coating_of coating }
{
    match coating {
        SurfaceCoating::IdealAr => Coating::IdealAr,
        SurfaceCoating::MgF2 {
            design_wavelength_nm: _,
        } => Coating::Multilayer,
        SurfaceCoating::BroadbandAr => Coating::Multilayer,
        SurfaceCoating::HighReflectanceMirror => Coating::Multilayer,
        SurfaceCoating::Custom(c) => c,
    }
}

// How many layers there are: a coating's own, or else count beside it.
fn layer_count(coating: SurfaceCoating, count: usize) -> usize
    ensures { result ≡ layer_count coating count }
{
    let own = own_count(coating);
    if own == 0 { count } else { own }
}

// Everything up to the layers, which are a coating's own or else count beside it: they are reversed where light goes from
// the denser medium to the rarer one.
pub fn prepare(
    coating: SurfaceCoating,
    count: usize,
    n_incident: f64,
    n_substrate: f64,
    angle_incident_rad: f64,
    wavelength_nm: f64,
) -> Prepared
    ensures { result ≡ prepared coating count n_incident n_substrate angle_incident_rad wavelength_nm }
{
    thin_film_coating::prepare(
        coating_of(coating),
        n_incident > n_substrate,
        layer_count(coating, count),
        n_incident,
        n_substrate,
        angle_incident_rad,
        wavelength_nm,
    )
}

// A preset coating is answered from its own layers, in the order that is prepared.
fn with_own_layers(coating: SurfaceCoating, prepared: Prepared) -> Prepared
    ensures { result ≡ answered_own coating prepared }
{
    if own_count(coating) == 0 {
        return prepared;
    }
    match prepared {
        Prepared::Answered(answer) => Prepared::Answered(answer),
        Prepared::Layers { reversed, light } => thin_film_coating::answered(solve_own(
            coating, reversed, light,
        )),
    }
}

// Everything up to the layers beside a coating.
pub(crate) fn prepare_surface(
    coating: SurfaceCoating,
    count: usize,
    n_incident: f64,
    n_substrate: f64,
    angle_incident_rad: f64,
    wavelength_nm: f64,
) -> Prepared
    ensures { (layers : List ThinFilmLayer) → length layers ≡ count → read_from result layers ≡ evaluate_surface coating layers n_incident n_substrate angle_incident_rad wavelength_nm }
{
    with_own_layers(
        coating,
        prepare(
            coating,
            count,
            n_incident,
            n_substrate,
            angle_incident_rad,
            wavelength_nm,
        ),
    )
}
