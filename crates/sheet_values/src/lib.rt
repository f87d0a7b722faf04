// The BEAM, the SURFACEs and the layers of a sheet as values: document 01, section 1, and document 02, slips 3 and 5.
#![tactic(auto)]

ghost use Rattle.std.specs.Prelude.{◌≡◌, []};
ghost use Rattle.sheet.specs.Internal.{next_place, layer_at, tuning_at, surface_at};
ghost use Rattle.sheet_values.specs.Values.{cauchy_index, cauchy_film, film, surface_value, met_with};
ghost use Rattle.sheet_values.specs.Internal.{beam_at, plain_at, cauchy_at, wavelength_at};

use gate_limits::Surface;
use thin_film_solver::ThinFilmLayer;

// A BEAM: its wavelength, its s and its p power.
#[derive(Clone, Copy)]
pub struct Beam {
    pub wavelength_nm: f64,
    pub s: f64,
    pub p: f64,
}

// The BEAM whose kind word is at a place; zero throughout past the last word.
pub fn beam_at(src: &[u8], at: usize) -> Beam
    ensures { result ≡ beam_at src.now at }
{
    let floats = sheet::floats_at(src, at);
    Beam {
        wavelength_nm: floats.first,
        s: floats.second,
        p: floats.third,
    }
}

// The BEAM of a sheet: it stands after OPEN.
pub fn beam_of(src: &[u8]) -> Beam
    ensures { result ≡ beam_at src.now (next_place src.now 0) }
{
    beam_at(src, sheet::next_place(src, 0))
}

// The SURFACE whose kind word is at a place; zero throughout past the last word.
pub fn surface_at(src: &[u8], at: usize) -> Surface
    ensures { result ≡ surface_value (surface_at src.now at []) }
{
    let payload = sheet::word_from(src, at) % 0x1000_0000;
    let floats = sheet::floats_at(src, at);
    Surface {
        reflected: payload % 2 == 1,
        coating: payload / 2,
        n_incident: floats.first,
        n_substrate: floats.second,
        angle_rad: floats.third,
    }
}

// ---- layers

// The LAYER whose kind word is at a place; zero throughout past the last word.
pub fn plain_at(src: &[u8], at: usize) -> ThinFilmLayer
    ensures { result ≡ plain_at src.now at }
{
    let floats = sheet::floats_at(src, at);
    ThinFilmLayer {
        n: floats.first,
        k: floats.second,
        thickness_nm: floats.third,
    }
}

// A glass that changes with colour, kind 6: the coefficients of Cauchy's formula, and the thickness.
#[derive(Clone, Copy)]
pub struct Cauchy {
    pub a: f64,
    pub b: f64,
    pub c: f64,
    pub thickness_nm: f64,
}

// The kind 6 whose kind word is at a place; zero throughout past the last word.
pub fn cauchy_at(src: &[u8], at: usize) -> Cauchy
    ensures { result ≡ cauchy_at src.now at }
{
    if at < src.len() / 4 {
        let floats = sheet::floats_at(src, at);
        return Cauchy {
            a: floats.first,
            b: floats.second,
            c: floats.third,
            thickness_nm: sheet::float_from(src, at + 7),
        };
    }
    Cauchy {
        a: 0.0,
        b: 0.0,
        c: 0.0,
        thickness_nm: 0.0,
    }
}

// Its index at a wavelength.
fn cauchy_index(wavelength_nm: f64, glass: Cauchy) -> f64
    ensures { result ≡ cauchy_index wavelength_nm glass }
{
    let u = wavelength_nm / 1000.0;
    let u2 = u * u;
    glass.a + (glass.b + glass.c / u2) / u2
}

// The layer that it is at a wavelength.
pub fn cauchy_film(wavelength_nm: f64, glass: Cauchy) -> ThinFilmLayer
    ensures { result ≡ cauchy_film wavelength_nm glass }
{
    ThinFilmLayer {
        n: cauchy_index(wavelength_nm, glass),
        k: 0.0,
        thickness_nm: glass.thickness_nm,
    }
}

// The layer of either kind at a place, at a wavelength.
pub fn layer_at(src: &[u8], at: usize, wavelength_nm: f64) -> ThinFilmLayer
    ensures { result ≡ film wavelength_nm (layer_at src.now at) }
{
    if sheet::kind_at(src, at) == 6 {
        return cauchy_film(wavelength_nm, cauchy_at(src, at));
    }
    plain_at(src, at)
}

// ---- kind 7

// The wavelength that a SURFACE is met with whose first block is at a place: its own kind 7's, or else the one held.
pub fn met_with(src: &[u8], at: usize, held_nm: f64) -> f64
    ensures { result ≡ met_with held_nm (tuning_at src.now at) }
{
    if at < src.len() / 4 {
        if sheet::kind_at(src, at) == 7 {
            return sheet::float_from(src, at + 1);
        }
    }
    held_nm
}

// The wavelength that the n-th SURFACE is met with by steps alone, counted from 0.
pub fn wavelength_of(src: &[u8], n: u32) -> f64
    ensures { result ≡ wavelength_at src.now n }
{
    let beam = beam_of(src);
    let mut at = sheet::begin_of(src, 0);
    let mut held_nm = met_with(src, at, beam.wavelength_nm);
    for _ in 0..n {
        at = sheet::after_layers(src, sheet::onto(src, at));
        held_nm = met_with(src, at, held_nm);
    }
    held_nm
}
