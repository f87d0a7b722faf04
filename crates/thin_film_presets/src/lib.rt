// The layers of the preset coatings by index, and 64 places that hold none.
#![tactic(auto)]

ghost use Rattle.std.specs.Prelude.{◌≡◌, get_or, replicate};
ghost use Rattle.thin_film_solver.specs.Solve as Solve;
ghost use Rattle.thin_film_layers.specs.Evaluation.{no_layer};
ghost use Rattle.thin_film_presets.specs.Layers.{quarter_wave, bragg_layers, broadband_layers};

use thin_film_solver::ThinFilmLayer;

// No layer in any place.
pub fn no_layers() -> [ThinFilmLayer; 64]
    ensures { result ≡ replicate 64 no_layer }
{
    [ThinFilmLayer {
        n: 0.0,
        k: 0.0,
        thickness_nm: 0.0,
    }; 64]
}

// A lossless layer, a quarter of the design wavelength thick.
pub fn quarter_wave(n: f64, design_wavelength_nm: f64) -> ThinFilmLayer
    ensures { result ≡ Solve.dielectric n (quarter_wave design_wavelength_nm n) }
{
    ThinFilmLayer::dielectric(n, design_wavelength_nm / (4.0 * n))
}

// The i-th of the four layers of the broadband coating, from the incident medium to the substrate: SiO2, TiO2, SiO2, TiO2.
pub fn broadband(i: usize) -> ThinFilmLayer
    ensures { result ≡ get_or broadband_layers i no_layer }
{
    if i == 0 {
        ThinFilmLayer::dielectric(1.46, 88.0)
    } else if i == 1 {
        ThinFilmLayer::dielectric(2.30, 112.0)
    } else if i == 2 {
        ThinFilmLayer::dielectric(1.46, 32.0)
    } else if i == 3 {
        ThinFilmLayer::dielectric(2.30, 15.0)
    } else {
        ThinFilmLayer::dielectric(0.0, 0.0)
    }
}

// The i-th layer of (H L)^N H, the same for each N that has one: N = i has.
pub fn bragg(n_high: f64, n_low: f64, design_wavelength_nm: f64, i: usize) -> ThinFilmLayer
    ensures { result ≡ get_or (bragg_layers n_high n_low i design_wavelength_nm) i no_layer }
{
    if i % 2 == 0 {
        quarter_wave(n_high, design_wavelength_nm)
    } else {
        quarter_wave(n_low, design_wavelength_nm)
    }
}
