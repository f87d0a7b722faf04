// The gate of document 01: any bytes of any length are admitted, with their count of surfaces, or
// refused with 4, 5 or 6, in that order over the whole sheet.
#![tactic(auto)]

ghost use Rattle.std.specs.Prelude.{◌≡◌, ◌||◌, T, Float};
ghost use Rattle.ieee.specs.Functions.{zero_f};
ghost use Rattle.math_trig.specs.Trig.{sin_cos};
ghost use Rattle.sheet.specs.Internal.{layer_at, tuning_at, layers_at, onto};
ghost use Rattle.sheet_values.specs.Values.{met_with};
ghost use Rattle.sheet.specs.Claim.{longest, length_fits};
ghost use Rattle.sheet.specs.Read.{decode, graded, surfaces_of, grammar};
ghost use Rattle.sheet_index.specs.Internal.{Indexed};
ghost use Rattle.refusal.specs.Outcome.{answer, refusal, map, outcome};
ghost use Rattle.gate.specs.Gate.{coefficients_finite, layer_admitted, within_limits, gate};
ghost use Rattle.gate.specs.Index.{index};
ghost use Rattle.gate.specs.Internal.{angle_at, fits, glass_finite, cauchy_admitted, metal_at, metal_layer, metal_layers, tuning_passes, passage_at, surface_holds_at, layers_hold_at, holds_from, holds_at};

use math_trig::SinCos;
use refusal::Refusal;
use sheet_values::Cauchy;

// The longest sheet in bytes: edition 2's where the first word is its OPEN.
fn longest(src: &[u8]) -> usize
    ensures { result ≡ longest src.now }
{
    if sheet::word_from(src, 0) == 0x1000_0002 {
        39460
    } else {
        30500
    }
}

// A multiple of 4, not under 36 and not over the longest.
fn length_fits(src: &[u8]) -> bool
    ensures { result ≡ length_fits src.now }
{
    let n = src.len();
    n % 4 == 0 && (36 <= n && n <= longest(src))
}

// The first block outside the limits, at its place.
fn outside(place: usize) -> Result<u32, Refusal>
    ensures { outcome result ≡ refusal 6 place }
{
    Err(Refusal::Limits(place))
}

// The coefficients of a kind 6 are finite.
fn glass_finite(glass: Cauchy) -> bool
    ensures { result ≡ glass_finite glass }
{
    ieee::is_finite(glass.a) && (ieee::is_finite(glass.b) && ieee::is_finite(glass.c))
}

// The layer of either kind at a place: a kind 6's coefficients are finite.
fn coefficients_finite(src: &[u8], at: usize) -> bool
    ensures { result ≡ coefficients_finite (layer_at src.now at) }
{
    if sheet::kind_at(src, at) == 6 {
        return glass_finite(sheet_values::cauchy_at(src, at));
    }
    true
}

// A kind 6 at a wavelength: its coefficients are finite, and its index is tested as a layer's n.
fn cauchy_passes(wavelength_nm: f64, snell: f64, glass: Cauchy) -> bool
    ensures { result ≡ cauchy_admitted wavelength_nm snell glass }
{
    glass_finite(glass)
        && gate_limits::layer_within(snell, sheet_values::cauchy_film(wavelength_nm, glass))
}

// ---- metal films (document 02, slip 12)

// The layer of either kind at a place, at a wavelength.
fn metal_layer(src: &[u8], at: usize, wavelength_nm: f64) -> bool
    ensures { result ≡ metal_layer wavelength_nm (layer_at src.now at) }
{
    if !coefficients_finite(src, at) {
        return false;
    }
    gate_limits::metal_within(sheet_values::layer_at(src, at, wavelength_nm))
}

// The n layers from a place on, and the sum of what they absorb, in their order.
fn metal_layers(src: &[u8], at: usize, n: usize, wavelength_nm: f64) -> bool
    ensures { result ≡ metal_layers wavelength_nm zero_f (layers_at src.now at n) }
{
    let mut place = at;
    let mut sum = 0.0;
    for _ in 0..n {
        if !metal_layer(src, place, wavelength_nm) {
            return false;
        }
        let layer = sheet_values::layer_at(src, place, wavelength_nm);
        sum = sum + gate_limits::absorption(wavelength_nm, layer);
        place = sheet::next_place(src, place);
    }
    sum <= 16.0
}

// The SURFACE at a place with n layers.
fn metal_holds(src: &[u8], at: usize, n: usize, wavelength_nm: f64) -> bool
    ensures { result ≡ metal_at src.now at n wavelength_nm }
{
    if !gate_limits::may_be_metal(sheet_values::surface_at(src, at), n) {
        return false;
    }
    metal_layers(src, sheet::next_place(src, at), n, wavelength_nm)
}

// ---- layers

// The layer of either kind at a place, at a wavelength.
fn layer_passes(src: &[u8], at: usize, wavelength_nm: f64, snell: f64) -> bool
    ensures { result ≡ layer_admitted wavelength_nm snell (layer_at src.now at) }
{
    if sheet::kind_at(src, at) == 6 {
        return cauchy_passes(wavelength_nm, snell, sheet_values::cauchy_at(src, at));
    }
    gate_limits::layer_within(snell, sheet_values::plain_at(src, at))
}

// Whether layers pass; and the place of the first that does not, or else the one after them.
#[derive(Clone, Copy)]
struct Fit {
    all: bool,
    place: usize,
}

// The n layers from a place on.
fn layers_fit(src: &[u8], at: usize, n: usize, wavelength_nm: f64, snell: f64) -> Fit
    ensures { result ≡ fits wavelength_nm snell src.now at (layers_at src.now at n) }
{
    let mut place = at;
    for _ in 0..n {
        if !layer_passes(src, place, wavelength_nm, snell) {
            return Fit { all: false, place };
        }
        place = sheet::next_place(src, place);
    }
    Fit { all: true, place }
}

// The SURFACE at a place with n layers: under section 3's limits, or else under those of metal films.
fn or_metal(all: bool, src: &[u8], at: usize, n: usize, wavelength_nm: f64) -> bool
    ensures { result ≡ all || metal_at src.now at n wavelength_nm }
{
    all || metal_holds(src, at, n, wavelength_nm)
}

// ---- a SURFACE with its kind 7 and its layers

// Whether it is within the limits, the wavelength that it is met with, and the place of its first block outside.
#[derive(Clone, Copy)]
struct Passage {
    passes: bool,
    wavelength_nm: f64,
    place: usize,
}

// The kind 7 at a place, if one is there, by the wavelength that its SURFACE is met with.
fn tuning_passes(src: &[u8], begin: usize, met_nm: f64) -> bool
    ensures { (held : Float) → met_nm ≡ met_with held (tuning_at src.now begin) → result ≡ tuning_passes (tuning_at src.now begin) }
{
    if sheet::kind_at(src, begin) != 7 {
        return true;
    }
    gate_limits::wavelength_passes(met_nm)
}

// The SURFACE that begins at a place, with n layers, after a wavelength, by the sine and the cosine of its angle.
fn judge(src: &[u8], begin: usize, n: usize, held_nm: f64, theta: SinCos) -> Passage
    requires { theta ≡ sin_cos (angle_at src.now (onto src.now begin)) }
    ensures { result ≡ passage_at src.now begin n held_nm }
{
    let wavelength_nm = sheet_values::met_with(src, begin, held_nm);
    if !tuning_passes(src, begin, wavelength_nm) {
        return Passage {
            passes: false,
            wavelength_nm,
            place: begin,
        };
    }
    let at = sheet::onto(src, begin);
    let surface = sheet_values::surface_at(src, at);
    let judgement = gate_limits::judge_with(surface, theta);
    if !judgement.passes {
        return Passage {
            passes: false,
            wavelength_nm,
            place: at,
        };
    }
    let next = sheet::next_place(src, at);
    let fit = layers_fit(src, next, n, wavelength_nm, judgement.snell);
    if !or_metal(fit.all, src, at, n, wavelength_nm) {
        return Passage {
            passes: false,
            wavelength_nm,
            place: fit.place,
        };
    }
    Passage {
        passes: true,
        wavelength_nm,
        place: begin,
    }
}

// ---- the limits and the gate

// The limits of a sheet that is in grammar, by its index: the BEAM, then SURFACE after SURFACE.
fn limits(
    src: &[u8],
    count: u32,
    begins: &[usize; 64],
    counts: &[usize; 64],
    sines: &[f64; 64],
    cosines: &[f64; 64],
) -> Result<u32, Refusal>
    requires { (T (length_fits src.now) × (grammar src.now ≡ answer count)) × Indexed src.now count begins.now counts.now sines.now cosines.now }
    ensures { outcome result ≡ map surfaces_of (within_limits (graded (decode src.now))) }
{
    let beam = sheet_values::beam_of(src);
    if !gate_limits::beam_passes(beam.wavelength_nm, beam.s, beam.p) {
        return outside(sheet::next_place(src, 0));
    }
    let n = count as usize;
    let mut wavelength_nm = beam.wavelength_nm;
    for i in 0..n {
        let theta = SinCos {
            sin: sines[i],
            cos: cosines[i],
        };
        let passage = judge(src, begins[i], counts[i], wavelength_nm, theta);
        if !passage.passes {
            return outside(passage.place);
        }
        wavelength_nm = passage.wavelength_nm;
    }
    Ok(count)
}

// The gate: the length, then the grammar, then the limits. It leaves the index of the sheet in four arrays.
pub fn gate_index(
    src: &[u8],
    begins: &mut [usize; 64],
    counts: &mut [usize; 64],
    sines: &mut [f64; 64],
    cosines: &mut [f64; 64],
) -> Result<u32, Refusal>
    ensures { record { result = outcome result; begins = begins.new; counts = counts.new; sines = sines.new; cosines = cosines.new } ≡ index src.now }
{
    *begins = [1usize; 64];
    *counts = [1usize; 64];
    *sines = [1.0f64; 64];
    *cosines = [1.0f64; 64];
    if !length_fits(src) {
        return Err(Refusal::Length);
    }
    let count = sheet::grammar(src)?;
    sheet_index::index(src, count as usize, begins, counts, sines, cosines);
    limits(src, count, begins, counts, sines, cosines)
}

// The gate alone.
pub fn gate(src: &[u8]) -> Result<u32, Refusal>
    ensures { outcome result ≡ gate src.now }
{
    let mut begins = [1usize; 64];
    let mut counts = [1usize; 64];
    let mut sines = [1.0f64; 64];
    let mut cosines = [1.0f64; 64];
    gate_index(src, &mut begins, &mut counts, &mut sines, &mut cosines)
}

// ---- what a wavelength is tested on

// The layers of the SURFACE at a place, under either set of limits.
fn surface_holds(src: &[u8], at: usize, wavelength_nm: f64) -> bool
    ensures { result ≡ surface_holds_at src.now at wavelength_nm }
{
    let n = sheet::layer_run(src, at);
    if n == 0 {
        return true;
    }
    let judgement = gate_limits::judge_surface(sheet_values::surface_at(src, at));
    let next = sheet::next_place(src, at);
    let fit = layers_fit(src, next, n, wavelength_nm, judgement.snell);
    or_metal(fit.all, src, at, n, wavelength_nm)
}

// The layers of n SURFACEs, the first of which begins at a place, up to the next kind 7.
fn layers_hold(src: &[u8], at: usize, n: u32, wavelength_nm: f64) -> bool
    ensures { result ≡ layers_hold_at n src.now at wavelength_nm }
{
    let mut place = at;
    for _ in 0..n {
        if sheet::kind_at(src, place) == 7 {
            return true;
        }
        if !surface_holds(src, place, wavelength_nm) {
            return false;
        }
        place = sheet::after_layers(src, place);
    }
    true
}

// A wavelength, for n SURFACEs, the first of which begins at a place.
pub fn holds_from(src: &[u8], at: usize, n: u32, wavelength_nm: f64) -> bool
    ensures { result ≡ holds_from src.now at n wavelength_nm }
{
    gate_limits::wavelength_passes(wavelength_nm) && layers_hold(src, at, n, wavelength_nm)
}

// A wavelength, with done of a sheet's count of SURFACEs behind it.
pub fn holds(src: &[u8], done: u32, count: u32, wavelength_nm: f64) -> bool
    ensures { result ≡ holds_at src.now done count wavelength_nm }
{
    if !gate_limits::wavelength_passes(wavelength_nm) {
        return false;
    }
    if done >= count {
        return true;
    }
    layers_hold(src, sheet::begin_of(src, done), count - done, wavelength_nm)
}
