// The stack shorthand of coating makers: (HL)^7 H is fifteen quarter waves.
#![tactic(auto)]

ghost use Rattle.std.specs.Prelude.{◌≡◌, map, ◌≤◌, length, take};
ghost use Rattle.refusal.specs.Outcome as Outcome;
ghost use Rattle.refusal.specs.Outcome.{outcome};
ghost use Rattle.thin_film_coating.specs.Coating.{layers_in};
ghost use Rattle.thin_film_shorthand.specs.Stack.{valid, index, layer, stack};

use refusal::Refusal;
use thin_film_coating::Layers;
use thin_film_grammar::Film;
use thin_film_solver::ThinFilmLayer;

// The indices and the design wavelength are positive and finite.
pub fn valid(n_h: f64, n_l: f64, n_m: f64, design_wavelength_nm: f64) -> bool
    ensures { result ≡ valid n_h n_l n_m design_wavelength_nm }
{
    if !ieee::finite_positive(n_h) {
        return false;
    }
    if !ieee::finite_positive(n_l) {
        return false;
    }
    if !ieee::finite_positive(n_m) {
        return false;
    }
    ieee::finite_positive(design_wavelength_nm)
}

// The index of a letter.
fn index(letter: u8, n_h: f64, n_l: f64, n_m: f64) -> f64
    ensures { result ≡ index n_h n_l n_m letter }
{
    if letter == 0 {
        return n_h;
    }
    if letter == 1 {
        return n_l;
    }
    n_m
}

// A quarter wave of a film's index, times its multiplier where one is written.
pub fn layer(film: Film, n_h: f64, n_l: f64, n_m: f64, design_wavelength_nm: f64) -> ThinFilmLayer
    ensures { result ≡ layer n_h n_l n_m design_wavelength_nm film }
{
    let n = index(film.letter, n_h, n_l, n_m);
    let quarter = thin_film_presets::quarter_wave(n, design_wavelength_nm);
    if film.multiplier == 0 {
        return quarter;
    }
    ThinFilmLayer::dielectric(n, film.multiplier as f64 * quarter.thickness_nm)
}

// The layers of the first count films.
fn layers(
    films: [Film; 64],
    count: usize,
    n_h: f64,
    n_l: f64,
    n_m: f64,
    design_wavelength_nm: f64,
) -> Layers
    requires { (count ≤ 64) × (count ≤ length films) }
    ensures { result ≡ layers_in (map (layer n_h n_l n_m design_wavelength_nm) (take count films)) }
{
    let mut items = thin_film_presets::no_layers();
    for i in 0..count {
        items[i] = layer(films[i], n_h, n_l, n_m, design_wavelength_nm);
    }
    Layers { items, count }
}

// The layers that a text stands for: H, L and M are quarter waves of three indices at the design
// wavelength. 1 for an index or a wavelength that is not positive and finite; 9 with the first byte
// that no text of the grammar could have there, with the length where the text stops early, and with
// 255 for a text over 255 bytes; 10 for more than 64 layers.
pub fn stack(
    text: &[u8],
    n_h: f64,
    n_l: f64,
    n_m: f64,
    design_wavelength_nm: f64,
) -> Result<Layers, Refusal>
    ensures { outcome result ≡ Outcome.map layers_in (stack text.now n_h n_l n_m design_wavelength_nm) }
{
    if !valid(n_h, n_l, n_m, design_wavelength_nm) {
        return Err(Refusal::InvalidParameter);
    }
    let reading = thin_film_reader::read(text)?;
    let films = reading.films;
    Ok(layers(films, reading.count, n_h, n_l, n_m, design_wavelength_nm))
}
