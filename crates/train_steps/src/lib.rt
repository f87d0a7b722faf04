// The train of document 01, section 7, and of document 02, slip 5: start, step, retune and whole run. Each is
// handed the sheet's bytes and gates them anew.
#![tactic(auto)]

ghost use Rattle.std.specs.Prelude.{◌≡◌, ◌++◌, ◌+◌, ◌*◌, ◌≤◌, ◌<◌, length, drop};
ghost use Rattle.refusal.specs.Outcome.{answer, outcome};
ghost use Rattle.sheet.specs.Sheet.{Sheet};
ghost use Rattle.gate.specs.Gate as Gate;
ghost use Rattle.gate.specs.Internal.{angle_at};
ghost use Rattle.math_trig.specs.Trig.{sin_cos};
ghost use Rattle.sheet.specs.Internal.{layer_run, onto};
ghost use Rattle.sheet_index.specs.Internal.{Indexed};
ghost use Rattle.train_steps.specs.Train.{chosen, chosen_of, fresh, start, step, retune, after_each, run, sum};
ghost use Rattle.train_steps.specs.Internal.{chosen_at, moved, moved_from, moved_at, run_at};

use math_trig::SinCos;
use refusal::Refusal;
use surface::Powers;

// ---- a surface

// The powers of a surface that s and p are multiplied by.
#[derive(Clone, Copy)]
pub struct Chosen {
    pub s: f64,
    pub p: f64,
}

// Those of the reflected or of the transmitted light.
pub fn choose(reflected: bool, r: Powers) -> Chosen
    ensures { result ≡ chosen reflected r }
{
    if reflected {
        Chosen {
            s: r.reflectance_s,
            p: r.reflectance_p,
        }
    } else {
        Chosen {
            s: r.transmittance_s,
            p: r.transmittance_p,
        }
    }
}

// No surface within the limits is refused.
fn chosen_of(reflected: bool, reply: Result<Powers, Refusal>) -> Chosen
    ensures { result ≡ chosen_of reflected (outcome reply) }
{
    match reply {
        Ok(r) => choose(reflected, r),
        Err(_) => Chosen {
            s: 0.0 / 0.0,
            p: 0.0 / 0.0,
        },
    }
}

// Of the surface at a place with the n layers after it.
fn chosen_at(src: &[u8], at: usize, n: usize, wavelength_nm: f64) -> Chosen
    ensures { result ≡ chosen_at src.now at n wavelength_nm }
{
    let surface = sheet_values::surface_at(src, at);
    let reply = sheet_answers::powers_at(src, at, n, surface, wavelength_nm);
    chosen_of(surface.reflected, reply)
}

// The same with the sine and the cosine of its angle.
fn chosen_with(src: &[u8], at: usize, n: usize, wavelength_nm: f64, theta: SinCos) -> Chosen
    requires { theta ≡ sin_cos (angle_at src.now at) }
    ensures { result ≡ chosen_at src.now at n wavelength_nm }
{
    let surface = sheet_values::surface_at(src, at);
    let reply = sheet_answers::powers_with_angle(src, at, n, surface, theta, wavelength_nm);
    chosen_of(surface.reflected, reply)
}

// ---- the train

// Document 01's State: surfaces done, s and p; and the wavelength that is held.
#[derive(Clone, Copy)]
pub struct State {
    pub done: u32,
    pub s: f64,
    pub p: f64,
    pub wavelength_nm: f64,
}

pub fn sum(s: f64, p: f64) -> f64
    ensures { result ≡ sum s p }
{
    s + p
}

// A train before the first surface of its sheet.
pub fn start(src: &[u8]) -> Result<State, Refusal>
    ensures { outcome result ≡ start src.now }
{
    gate::gate(src)?;
    let beam = sheet_values::beam_of(src);
    Ok(State {
        done: 0,
        s: beam.s,
        p: beam.p,
        wavelength_nm: beam.wavelength_nm,
    })
}

// The state after a surface of these powers, met with a wavelength.
fn moved(c: Chosen, wavelength_nm: f64, state: State) -> State
    requires { state.done < 0xFFFF_FFFF }
    ensures { result ≡ moved c wavelength_nm state }
{
    State {
        done: state.done + 1,
        s: state.s * c.s,
        p: state.p * c.p,
        wavelength_nm,
    }
}

// The state after the surface at a place with the n layers after it, met with a wavelength.
fn moved_from(src: &[u8], at: usize, n: usize, wavelength_nm: f64, state: State) -> State
    requires { state.done < 0xFFFF_FFFF }
    ensures { result ≡ moved_from src.now at n wavelength_nm state }
{
    moved(chosen_at(src, at, n, wavelength_nm), wavelength_nm, state)
}

// The state after the surface that begins at a place with its n layers, which is met with its own kind 7's wavelength or the one held.
fn moved_at(src: &[u8], begin: usize, n: usize, theta: SinCos, state: State) -> State
    requires { (state.done < 0xFFFF_FFFF) × ((n ≡ layer_run 16 src.now (onto src.now begin)) × (theta ≡ sin_cos (angle_at src.now (onto src.now begin)))) }
    ensures { result ≡ moved_at src.now begin state }
{
    let wavelength_nm = sheet_values::met_with(src, begin, state.wavelength_nm);
    let at = sheet::onto(src, begin);
    moved(
        chosen_with(src, at, n, wavelength_nm, theta),
        wavelength_nm,
        state,
    )
}

// One surface on from any state; a refusal leaves the state as it was.
pub fn step(src: &[u8], state: State) -> Result<State, Refusal>
    ensures { outcome result ≡ step src.now state }
{
    let mut begins = [1usize; 64];
    let mut counts = [1usize; 64];
    let mut sines = [1.0f64; 64];
    let mut cosines = [1.0f64; 64];
    let count = gate::gate_index(src, &mut begins, &mut counts, &mut sines, &mut cosines)?;
    if state.done >= count {
        return Err(Refusal::NoSurface);
    }
    let i = state.done as usize;
    let begin = begins[i];
    if !gate::holds_from(src, begin, count - state.done, state.wavelength_nm) {
        return Err(Refusal::Wavelength);
    }
    let theta = SinCos {
        sin: sines[i],
        cos: cosines[i],
    };
    Ok(moved_at(src, begin, counts[i], theta, state))
}

// A new wavelength for the surfaces not yet done, from any state; a refusal leaves the state as it was.
pub fn retune(src: &[u8], state: State, wavelength_nm: f64) -> Result<State, Refusal>
    ensures { outcome result ≡ retune src.now state wavelength_nm }
{
    let count = gate::gate(src)?;
    if !gate::holds(src, state.done, count, wavelength_nm) {
        return Err(Refusal::Wavelength);
    }
    Ok(State {
        done: state.done,
        s: state.s,
        p: state.p,
        wavelength_nm,
    })
}

// ---- a whole run

// The powers after each of count surfaces, written to a list that has room for them.
fn write_each(
    src: &[u8],
    count: usize,
    begins: &[usize; 64],
    counts: &[usize; 64],
    sines: &[f64; 64],
    cosines: &[f64; 64],
    list: &mut [f64],
)
    requires { (2 * count ≤ length list.old) × Indexed src.now count begins.now counts.now sines.now cosines.now }
    ensures { (x : Sheet) → Gate.gated src.now ≡ answer x → length x.surfaces ≡ count → list.new ≡ after_each (fresh x) x.surfaces ++ drop (2 * count) list.old }
{
    let beam = sheet_values::beam_of(src);
    let mut s = beam.s;
    let mut p = beam.p;
    let mut wavelength_nm = beam.wavelength_nm;
    for i in 0..count {
        let begin = begins[i];
        wavelength_nm = sheet_values::met_with(src, begin, wavelength_nm);
        let at = sheet::onto(src, begin);
        let theta = SinCos {
            sin: sines[i],
            cos: cosines[i],
        };
        let c = chosen_with(src, at, counts[i], wavelength_nm, theta);
        s = s * c.s;
        p = p * c.p;
        list[2 * i] = s;
        list[2 * i + 1] = p;
    }
}

// The state after count surfaces from the start, with a wavelength in place of the BEAM's; it gates nothing.
pub fn run_at(src: &[u8], count: u32, wavelength_nm: f64) -> State
    ensures { result ≡ run_at src.now count wavelength_nm }
{
    let beam = sheet_values::beam_of(src);
    let mut state = State {
        done: 0,
        s: beam.s,
        p: beam.p,
        wavelength_nm,
    };
    let mut begin = sheet::begin_of(src, 0);
    for _ in 0..count {
        let met_nm = sheet_values::met_with(src, begin, state.wavelength_nm);
        let at = sheet::onto(src, begin);
        let run = sheet::layers_on(src, at);
        state = moved_from(src, at, run.count, met_nm, state);
        begin = run.next;
    }
    state
}

// A run over the whole sheet from its start: s, p after each surface go to the lent list.
pub fn run(src: &[u8], list: &mut [f64]) -> Result<u32, Refusal>
    ensures { record { result = outcome result; list = list.new } ≡ run src.now list.old }
{
    let mut begins = [1usize; 64];
    let mut counts = [1usize; 64];
    let mut sines = [1.0f64; 64];
    let mut cosines = [1.0f64; 64];
    let count = gate::gate_index(src, &mut begins, &mut counts, &mut sines, &mut cosines)?;
    let n = count as usize;
    if list.len() < 2 * n {
        return Err(Refusal::TooShort);
    }
    write_each(src, n, &begins, &counts, &sines, &cosines, list);
    Ok(count)
}
