// Coatings on layers that are held by value: the first count of 72 places are lent to the functions
// of thin_film that read a caller's list. For programs that have their layers in an array. A count
// past the places is refused with 3.
#![tactic(auto)]

ghost use Rattle.std.specs.Prelude.{◌≡◌, cond, leb, take};
ghost use Rattle.refusal.specs.Outcome.{answer, too_many_layers, outcome};
ghost use Rattle.thin_film_solver.specs.Solve as Solve;
ghost use Rattle.thin_film_coating.specs.Evaluate.{evaluate_coating};
ghost use Rattle.thin_film.specs.Evaluate.{evaluate_surface};

use refusal::Refusal;
use thin_film::SurfaceCoating;
use thin_film_coating::Coating;
use thin_film_solver::{CoatingResponse, ThinFilmLayer};

// Coating::evaluate on the first count of the items.
pub fn evaluate_coating(
    coating: Coating,
    items: [ThinFilmLayer; 72],
    count: usize,
    n_incident: f64,
    n_substrate: f64,
    angle_incident_rad: f64,
    wavelength_nm: f64,
) -> Result<CoatingResponse, Refusal>
    ensures { outcome result ≡ cond (leb count 72) (evaluate_coating coating (take count items) n_incident n_substrate angle_incident_rad wavelength_nm) too_many_layers }
{
    if count > 72 {
        return Err(Refusal::TooManyLayers);
    }
    coating.evaluate(
        &items[..count],
        n_incident,
        n_substrate,
        angle_incident_rad,
        wavelength_nm,
    )
}

// SurfaceCoating::evaluate on the first count of the items.
pub fn evaluate_surface(
    coating: SurfaceCoating,
    items: [ThinFilmLayer; 72],
    count: usize,
    n_incident: f64,
    n_substrate: f64,
    angle_incident_rad: f64,
    wavelength_nm: f64,
) -> Result<CoatingResponse, Refusal>
    ensures { outcome result ≡ cond (leb count 72) (evaluate_surface coating (take count items) n_incident n_substrate angle_incident_rad wavelength_nm) too_many_layers }
{
    if count > 72 {
        return Err(Refusal::TooManyLayers);
    }
    coating.evaluate(
        &items[..count],
        n_incident,
        n_substrate,
        angle_incident_rad,
        wavelength_nm,
    )
}

// evaluate_tmm_multilayer on the first count of the items.
pub fn evaluate_multilayer(
    items: [ThinFilmLayer; 72],
    count: usize,
    n_incident: f64,
    n_substrate: f64,
    angle_incident_rad: f64,
    wavelength_nm: f64,
) -> Result<CoatingResponse, Refusal>
    ensures { outcome result ≡ cond (leb count 72) (answer (Solve.evaluate n_incident n_substrate angle_incident_rad wavelength_nm (take count items))) too_many_layers }
{
    if count > 72 {
        return Err(Refusal::TooManyLayers);
    }
    Ok(thin_film_layers::evaluate_tmm_multilayer(
        n_incident,
        n_substrate,
        angle_incident_rad,
        wavelength_nm,
        &items[..count],
    ))
}
