// The surfaces of a sheet by their numbers, counted from 0: document 01, section 7. Each call is handed
// the sheet's bytes and gates them anew.
#![tactic(auto)]

ghost use Rattle.std.specs.Prelude.{◌≡◌};
ghost use Rattle.refusal.specs.Outcome.{outcome};
ghost use Rattle.sheet_surfaces.specs.Surfaces.{surface_answers, nth_surface, nth_layer};
ghost use Rattle.sheet_surfaces.specs.Internal.{answers_met};

use gate_limits::Surface;
use refusal::Refusal;
use surface::Answers;
use thin_film_solver::ThinFilmLayer;

// ---- a surface's answers

// Of the SURFACE at a place, with the layers after it, met with a wavelength.
pub fn answers_met(src: &[u8], at: usize, wavelength_nm: f64) -> Result<Answers, Refusal>
    ensures { outcome result ≡ answers_met src.now at wavelength_nm }
{
    let n = sheet::layer_run(src, at);
    let surface = sheet_values::surface_at(src, at);
    sheet_answers::answers_at(src, at, n, surface, wavelength_nm)
}

// Of the i-th surface, counted from 0, at the wavelength that a list of steps alone meets it with.
pub fn surface_answers(src: &[u8], i: u32) -> Result<Answers, Refusal>
    ensures { outcome result ≡ surface_answers src.now i }
{
    let count = gate::gate(src)?;
    if i >= count {
        return Err(Refusal::NoSurface);
    }
    let wavelength_nm = sheet_values::wavelength_of(src, i);
    answers_met(src, sheet::place_of(src, i), wavelength_nm)
}

// ---- its words

// A SURFACE's words, and how many layers it has.
#[derive(Clone, Copy)]
pub struct NumberedSurface {
    pub surface: Surface,
    pub layers: usize,
}

// The i-th surface.
pub fn nth_surface(src: &[u8], i: u32) -> Result<NumberedSurface, Refusal>
    ensures { outcome result ≡ nth_surface src.now i }
{
    let count = gate::gate(src)?;
    if i >= count {
        return Err(Refusal::NoSurface);
    }
    let at = sheet::place_of(src, i);
    let surface = sheet_values::surface_at(src, at);
    let layers = sheet::layer_run(src, at);
    Ok(NumberedSurface { surface, layers })
}

// The j-th layer of the i-th surface, at the wavelength that a list of steps alone meets it with.
pub fn nth_layer(src: &[u8], i: u32, j: usize) -> Result<ThinFilmLayer, Refusal>
    ensures { outcome result ≡ nth_layer src.now i j }
{
    let count = gate::gate(src)?;
    if i >= count {
        return Err(Refusal::NoSurface);
    }
    let at = sheet::place_of(src, i);
    if j >= sheet::layer_run(src, at) {
        return Err(Refusal::NoSurface);
    }
    let wavelength_nm = sheet_values::wavelength_of(src, i);
    Ok(sheet_answers::layer_after(src, at, j, wavelength_nm))
}
