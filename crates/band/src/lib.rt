// A whole band (document 02, slip 14): a sheet's train at each of 1 to 64 lines from its start, and the
// weighed means of s and of p.
#![tactic(auto)]

ghost use Rattle.std.specs.Prelude.{◌≡◌, ◌<◌, true, T, Float, length};
ghost use Rattle.refusal.specs.Outcome.{answer, outcome};
ghost use Rattle.sheet.specs.Sheet.{Sheet};
ghost use Rattle.sheet.specs.Internal.{begin};
ghost use Rattle.gate.specs.Gate.{gated};
ghost use Rattle.gate.specs.Wavelength.{holds};
ghost use Rattle.gate.specs.Internal.{layers_hold_at, holds_at};
ghost use Rattle.band.specs.Band.{at_line, weight_passes, lines_fit, whole_sum, powers, band};
ghost use Rattle.band.specs.Internal.{first_false, Line, AllPass};

use refusal::Refusal;
use train_steps::State;

mod steady;

// ---- the lines

// 1 to 64 lines, a weight for each.
fn lines_fit(wavelengths: &[f64], weights: &[u32]) -> bool
    ensures { result ≡ lines_fit wavelengths.now weights.now }
{
    let n = wavelengths.len();
    1 <= n && (n <= 64 && n == weights.len())
}

// A whole weight, 1 to 1,000.
fn weight_passes(weight: u32) -> bool
    ensures { result ≡ weight_passes weight }
{
    1 <= weight && weight <= 1000
}

// The first line whose weight is outside; their count where there is none.
fn first_weight_outside(weights: &[u32]) -> usize
    ensures { result ≡ first_false weight_passes weights.now }
{
    for i in 0..weights.len() {
        if !weight_passes(weights[i]) {
            return i;
        }
    }
    weights.len()
}

// Whether the gate takes a line's wavelength, where it is known or not whether all layers always pass.
fn line_passes(src: &[u8], count: u32, always: bool, wavelength_nm: f64) -> bool
    requires { T always → (w : Float) → layers_hold_at count src.now (begin src.now 0) w ≡ true }
    ensures { result ≡ holds_at src.now 0 count wavelength_nm }
{
    if always {
        gate_limits::wavelength_passes(wavelength_nm)
    } else {
        gate::holds(src, 0, count, wavelength_nm)
    }
}

// The first line whose wavelength the gate refuses; their count where there is none.
fn first_wavelength_outside(src: &[u8], count: u32, wavelengths: &[f64]) -> usize
    ensures { result ≡ first_false (holds_at src.now 0 count) wavelengths.now }
{
    let always = steady::steady(src, count);
    for i in 0..wavelengths.len() {
        if !line_passes(src, count, always, wavelengths[i]) {
            return i;
        }
    }
    wavelengths.len()
}

// ---- the sums

// The train at a line, from its start to its last surface.
fn at_line(src: &[u8], count: u32, wavelength_nm: f64) -> State
    ensures { (x : Sheet) → gated src.now ≡ answer x → length x.surfaces ≡ count → T (holds wavelength_nm x.surfaces) → Line result (at_line x wavelength_nm) }
{
    train_steps::run_at(src, count, wavelength_nm)
}

// The means of s and of p over a band, and how many lines it has.
#[derive(Clone, Copy)]
pub struct BandPowers {
    pub lines: u32,
    pub s: f64,
    pub p: f64,
}

// Each weight times each power is added up in the order of the lines, onto +0; the totals are divided by
// the sum of the weights.
fn weighed(src: &[u8], count: u32, wavelengths: &[f64], weights: &[u32]) -> BandPowers
    requires { T (lines_fit wavelengths.now weights.now) × (whole_sum weights.now < 0x1_0000_0000) }
    ensures { (x : Sheet) → gated src.now ≡ answer x → length x.surfaces ≡ count → AllPass x wavelengths.now → result ≡ powers x wavelengths.now weights.now }
{
    let n = wavelengths.len();
    let mut s = 0.0;
    let mut p = 0.0;
    let mut whole: u32 = 0;
    for i in 0..n {
        let line = at_line(src, count, wavelengths[i]);
        let weight = weights[i];
        s = s + weight as f64 * line.s;
        p = p + weight as f64 * line.p;
        whole += weight;
    }
    BandPowers {
        lines: n as u32,
        s: s / whole as f64,
        p: p / whole as f64,
    }
}

// ---- a band

// The means of s and of p over the lines of a band, each a wavelength and a weight. Refusals: 4, 5, 6, 12
// with the word of the first kind 7; 15 with 64 for no lines, more than 64 or lists of unequal length, else
// with the first line whose weight is outside; 16 with the first line whose wavelength the gate refuses.
pub fn band(src: &[u8], wavelengths: &[f64], weights: &[u32]) -> Result<BandPowers, Refusal>
    ensures { outcome result ≡ band src.now wavelengths.now weights.now }
{
    let count = sheet_untuned::without_tuning(src)?;
    if !lines_fit(wavelengths, weights) {
        return Err(Refusal::Weight(64));
    }
    let weight = first_weight_outside(weights);
    if weight < weights.len() {
        return Err(Refusal::Weight(weight));
    }
    let wavelength = first_wavelength_outside(src, count, wavelengths);
    if wavelength < wavelengths.len() {
        return Err(Refusal::Line(wavelength));
    }
    Ok(weighed(src, count, wavelengths, weights))
}
