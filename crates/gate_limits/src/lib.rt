// One surface of a train: its coating by code, and the limits of document 01's section 3 and of document 02's slip 12.
#![tactic(auto)]

ghost use Rattle.std.specs.Prelude.{◌≡◌};
ghost use Rattle.math_trig.specs.Trig.{sin_cos};
ghost use Rattle.gate_limits.specs.Coating.{coded, interface, preset_layers};
ghost use Rattle.gate_limits.specs.Limits.{within, wavelength_passes, beam_passes, layer_within, layers_within, angle_within, surface_within, judgement, metal_within, absorption, may_be_metal};

use math_trig::SinCos;
use thin_film::SurfaceCoating;
use thin_film_coating::Coating;
use thin_film_solver::ThinFilmLayer;

// A SURFACE's words: whether the reflected light is followed, the coating's code (payload / 2), both
// indices and the angle of incidence.
#[derive(Clone, Copy)]
pub struct Surface {
    pub reflected: bool,
    pub coating: u32,
    pub n_incident: f64,
    pub n_substrate: f64,
    pub angle_rad: f64,
}

// From a code to a coating. Code 5 is made of layers of its own.
pub fn coded(code: u32, design_wavelength_nm: f64) -> Option<SurfaceCoating>
    ensures { result ≡ coded code design_wavelength_nm }
{
    if code == 1 {
        Some(SurfaceCoating::IdealAr)
    } else if code == 2 {
        Some(SurfaceCoating::MgF2 {
            design_wavelength_nm,
        })
    } else if code == 3 {
        Some(SurfaceCoating::BroadbandAr)
    } else if code == 4 {
        Some(SurfaceCoating::HighReflectanceMirror)
    } else if code == 5 {
        Some(SurfaceCoating::Custom(Coating::Multilayer))
    } else if code == 6 {
        Some(SurfaceCoating::Custom(Coating::IdealBeamsplitter))
    } else if code == 7 {
        Some(SurfaceCoating::Custom(Coating::IdealMirror))
    } else {
        None
    }
}

// Of a sheet, whose MgF2 is at 550 nm.
pub fn interface_of(code: u32) -> Option<SurfaceCoating>
    ensures { result ≡ interface code }
{
    coded(code, 550.0)
}

// ---- limits, all ends included

pub fn within(lo: f64, hi: f64, x: f64) -> bool
    ensures { result ≡ within lo hi x }
{
    lo <= x && x <= hi
}

// A wavelength: the BEAM's, a kind 7's or one that a train is given.
pub fn wavelength_passes(wavelength_nm: f64) -> bool
    ensures { result ≡ wavelength_passes wavelength_nm }
{
    within(100.0, 10000.0, wavelength_nm)
}

// A BEAM: its wavelength, its s and its p power.
pub fn beam_passes(wavelength_nm: f64, s: f64, p: f64) -> bool
    ensures { result ≡ beam_passes wavelength_nm s p }
{
    wavelength_passes(wavelength_nm) && (within(0.0, 1.0, s) && within(0.0, 1.0, p))
}

// A layer, for an n_incident * abs(sin) of snell.
pub fn layer_within(snell: f64, layer: ThinFilmLayer) -> bool
    ensures { result ≡ layer_within snell layer }
{
    within(1.0, 4.0, layer.n)
        && (layer.k == 0.0
            && (within(0.0, 100000.0, layer.thickness_nm) && snell <= 0.875 * layer.n))
}

// The layers of a preset coating. All that can fail is n_incident * abs(sin), and it fails first at
// the smallest index, MgF2's or SiO2's.
fn presets_within(snell: f64, coating: u32) -> bool
    ensures { result ≡ layers_within snell (preset_layers (interface coating)) }
{
    if coating == 2 {
        return snell <= 0.875 * 1.38;
    }
    if coating == 3 {
        return snell <= 0.875 * 1.46;
    }
    if coating == 4 {
        return snell <= 0.875 * 1.46;
    }
    true
}

// The angle of a SURFACE, where it is finite, from n_incident * abs(sin) and its cosine.
fn angle_within(snell: f64, cos: f64, surface: Surface) -> bool
    ensures { result ≡ angle_within snell cos surface }
{
    0.25 <= cos && (snell <= 0.875 * surface.n_substrate && presets_within(snell, surface.coating))
}

// A SURFACE without its LAYERs, from n_incident * abs(sin) and the cosine of its angle; the layers of a
// preset coating count as its own.
fn surface_within(snell: f64, cos: f64, surface: Surface) -> bool
    ensures { result ≡ surface_within snell cos surface }
{
    within(1.0, 4.0, surface.n_incident)
        && (within(1.0, 4.0, surface.n_substrate)
            && (ieee::is_finite(surface.angle_rad) && angle_within(snell, cos, surface)))
}

// Whether a SURFACE is within the limits, and its n_incident * abs(sin), which those of its LAYERs ask for.
#[derive(Clone, Copy)]
pub struct Judgement {
    pub passes: bool,
    pub snell: f64,
}

// One sine and one cosine for all of a surface's limits: those of its angle.
pub fn judge_with(surface: Surface, theta: SinCos) -> Judgement
    ensures { theta ≡ sin_cos surface.angle_rad → result ≡ judgement surface }
{
    let snell = surface.n_incident * ieee::abs(theta.sin);
    Judgement {
        passes: surface_within(snell, theta.cos, surface),
        snell,
    }
}

pub fn judge_surface(surface: Surface) -> Judgement
    ensures { result ≡ judgement surface }
{
    judge_with(surface, math_trig::sin_cos(surface.angle_rad))
}

// ---- metal films, under other limits

// A layer.
pub fn metal_within(layer: ThinFilmLayer) -> bool
    ensures { result ≡ metal_within layer }
{
    within(0.0625, 4.0, layer.n)
        && (within(0.0, 8.0, layer.k) && within(0.0, 100000.0, layer.thickness_nm))
}

// What a layer adds to the sum that is limited.
pub fn absorption(wavelength_nm: f64, layer: ThinFilmLayer) -> f64
    ensures { result ≡ absorption wavelength_nm layer }
{
    2.0 * 3.141592653589793 * layer.thickness_nm / wavelength_nm * layer.k
}

// A custom surface at angle zero that has 1 to 4 layers.
pub fn may_be_metal(surface: Surface, count: usize) -> bool
    ensures { result ≡ may_be_metal surface count }
{
    surface.coating == 5 && (surface.angle_rad == 0.0 && (1 <= count && count <= 4))
}
