// SurfaceCoating::evaluate for a coating by its code, whose layers stand in a flat list: n, k, thickness
// of one after the other.
#![tactic(auto)]

ghost use Rattle.std.specs.Prelude.{◌≡◌, List, ◌<◌, ◌+◌, ◌*◌, ◌≤◌, ◌/◌, ◌-◌, cond, length, get_or, take, drop};
ghost use Rattle.thin_film_solver.specs.declared.ThinFilmLayer as Layer;
ghost use Rattle.thin_film_solver.specs.Internal.{solved};
ghost use Rattle.thin_film_layers.specs.Evaluation.{ordered, no_layer};
ghost use Rattle.surface_real.specs.Internal.{no_films, stacked};
ghost use Rattle.thin_film.specs.Evaluate.{evaluate_surface, refusal_of};
ghost use Rattle.c_layers.specs.Evaluate.{layers, call_coating, evaluate};
ghost use Rattle.surface_real.specs.InternalFilms.{Wrote};
ghost use Rattle.thin_film.specs.Internal.{own_layers};
ghost use Rattle.c_layers.specs.Internal.{layer_on, checked_custom};
ghost use Rattle.refusal.specs.Outcome.{outcome};

use refusal::Refusal;
use surface_real::Stack;
use thin_film::{SurfaceCoating, reading};
use thin_film_coating::Coating;
use thin_film_layers::Prepared;
use thin_film_solver::{CoatingResponse, Incidence, ThinFilmLayer};

// The j-th layer.
fn layer_at(flat: &[f64], j: usize) -> ThinFilmLayer
    requires { 3 * j + 2 < length flat.now }
    ensures { result ≡ get_or (layers flat.now) j no_layer }
{
    ThinFilmLayer {
        n: flat[3 * j],
        k: flat[3 * j + 1],
        thickness_nm: flat[3 * j + 2],
    }
}

// Whether there are layers, none absorbs, and light goes on in each: the quick way takes no others. Nothing but time hangs on this.
fn promising(flat: &[f64], light: Incidence) -> bool {
    let n = flat.len() / 3;
    let mut sum = 0.0;
    let mut least = 1e300;
    for i in 0..n {
        let layer = layer_at(flat, i);
        sum = sum + layer.k;
        least = if layer.n < least { layer.n } else { least };
    }
    ((0 < n) & (sum == 0.0)) & (ieee::abs(light.snell) <= 0.9995 * least)
}

// As many layers as there are places for, of those that are left.
fn at_most_16(left: usize) -> usize
    ensures { (result ≤ 16) × (result ≤ left) × (0 < left → 0 < result) }
{
    if left < 16 { left } else { 16 }
}

// The media of a few layers of the list, after so many others, in its order.
fn media_from(
    flat: &[f64],
    after: usize,
    few: usize,
    light: Incidence,
    eta_s: &mut [f64; 16],
    eta_p: &mut [f64; 16],
    delta: &mut [f64; 16],
)
    requires { (few ≤ 16) × (after + few ≤ length flat.now / 3) }
    ensures { Wrote light.snell light.wavelength_nm (layer_on flat.now after) few eta_s.old eta_p.old delta.old eta_s.new eta_p.new delta.new }
{
    let mut recent = surface_real::no_recent();
    for i in 0..few {
        recent = surface_real::turn(light, layer_at(flat, after + i), recent);
        let seen = recent.last;
        let medium = seen.medium;
        eta_s[i] = medium.eta_s;
        eta_p[i] = medium.eta_p;
        delta[i] = medium.delta;
    }
}

// A few layers of the list, after so many others, joined to a product: each layer is read once, in the list's order, and
// its film is met from the far end where light comes from there (document 02, slip 4).
fn join_some(
    flat: &[f64],
    after: usize,
    few: usize,
    reversed: bool,
    light: Incidence,
    stack: Stack,
) -> Stack
    requires { (few ≤ 16) × (after + few ≤ length flat.now / 3) }
    ensures { result ≡ stacked light.snell light.wavelength_nm stack (ordered reversed (take few (drop after (layers flat.now)))) }
{
    let mut eta_s = [1.0; 16];
    let mut eta_p = [1.0; 16];
    let mut delta = [1.0; 16];
    media_from(flat, after, few, light, &mut eta_s, &mut eta_p, &mut delta);
    surface_real::films::join_all(&eta_s, &eta_p, &delta, few, reversed, stack)
}

// Where a few layers stand in a list of n that light meets after i others: from its front, or from its far end.
fn front_of(reversed: bool, n: usize, i: usize, few: usize) -> usize
    requires { i + few ≤ n }
    ensures { result ≡ cond reversed (n - i - few) i }
{
    if reversed { n - i - few } else { i }
}

// The products of every layer's films over real numbers, in the order of the list or reversed: 16 at a time.
fn stack_of(flat: &[f64], reversed: bool, light: Incidence) -> Stack
    ensures { result ≡ stacked light.snell light.wavelength_nm no_films (ordered reversed (layers flat.now)) }
{
    let n = flat.len() / 3;
    let mut stack = surface_real::no_films();
    let mut i = 0;
    while i < n {
        let few = at_most_16(n - i);
        let after = front_of(reversed, n, i, few);
        stack = join_some(flat, after, few, reversed, light, stack);
        i += few;
    }
    stack
}

// The response with every layer of the list, in its order or reversed.
fn solve_each(flat: &[f64], reversed: bool, light: Incidence) -> CoatingResponse
    ensures { result ≡ solved light (ordered reversed (layers flat.now)) }
{
    let n = flat.len() / 3;
    let mut ms = thin_film_matrix::identity();
    let mut mp = thin_film_matrix::identity();
    for i in 0..n {
        let j = thin_film_layers::nth_index(reversed, n, i);
        let terms = thin_film_solver::terms_of(light, layer_at(flat, j));
        let next_s = thin_film_solver::step_s(ms, terms);
        let next_p = thin_film_solver::step_p(mp, terms);
        ms = next_s;
        mp = next_p;
    }
    thin_film_solver::finish(light, ms, mp)
}

// That response: over real numbers where no layer absorbs and the quick way knows it, or else layer by layer.
fn solve_list(flat: &[f64], reversed: bool, light: Incidence) -> CoatingResponse
    ensures { result ≡ solved light (ordered reversed (layers flat.now)) }
{
    if promising(flat, light) {
        let quick = response_real::finish(light, stack_of(flat, reversed, light));
        if quick.known {
            let response = quick.response;
            return response;
        }
    }
    solve_each(flat, reversed, light)
}

// The response with a coating's own layers, or else those of the list.
fn solve(coating: SurfaceCoating, flat: &[f64], reversed: bool, light: Incidence) -> CoatingResponse
    ensures { result ≡ solved light (ordered reversed (own_layers coating (layers flat.now))) }
{
    if reading::own_count(coating) == 0 {
        solve_list(flat, reversed, light)
    } else {
        response_real::solve_own(coating, reversed, light)
    }
}

// A coating beside its layers.
fn evaluate_known(
    coating: SurfaceCoating,
    flat: &[f64],
    n_incident: f64,
    n_substrate: f64,
    angle_incident_rad: f64,
    wavelength_nm: f64,
) -> Result<CoatingResponse, Refusal>
    ensures { outcome result ≡ evaluate_surface coating (layers flat.now) n_incident n_substrate angle_incident_rad wavelength_nm }
{
    match reading::prepare(
        coating,
        flat.len() / 3,
        n_incident,
        n_substrate,
        angle_incident_rad,
        wavelength_nm,
    ) {
        Prepared::Answered(answer) => answer,
        Prepared::Layers { reversed, light } => Ok(solve(coating, flat, reversed, light)),
    }
}

// From a code to a coating: a sheet's codes, and 8 for Custom(IdealAr).
fn coating_of(code: u32, design_wavelength_nm: f64) -> Option<SurfaceCoating>
    ensures { result ≡ call_coating code design_wavelength_nm }
{
    if code == 8 {
        return Some(SurfaceCoating::Custom(Coating::IdealAr));
    }
    gate_limits::coded(code, design_wavelength_nm)
}

// The coating by its code, the layers in a flat list; 1 for a code that has no coating, and for a
// list that is no multiple of 3.
pub fn evaluate(
    code: u32,
    design_wavelength_nm: f64,
    n_incident: f64,
    n_substrate: f64,
    angle_incident_rad: f64,
    wavelength_nm: f64,
    flat: &[f64],
) -> Result<CoatingResponse, Refusal>
    ensures { outcome result ≡ evaluate code design_wavelength_nm n_incident n_substrate angle_incident_rad wavelength_nm flat.now }
{
    if flat.len() % 3 != 0 {
        return Err(Refusal::InvalidParameter);
    }
    match coating_of(code, design_wavelength_nm) {
        Some(coating) => evaluate_known(
            coating,
            flat,
            n_incident,
            n_substrate,
            angle_incident_rad,
            wavelength_nm,
        ),
        None => Err(Refusal::InvalidParameter),
    }
}

// ---- without an evaluation

// More than 64 explicit layers are refused with 3; any other coating of a user's ignores them.
fn check_custom(coating: Coating, count: usize) -> Result<(), Refusal>
    ensures { outcome result ≡ checked_custom coating count }
{
    match coating {
        Coating::Multilayer => if count > 64 {
            Err(Refusal::TooManyLayers)
        } else {
            Ok(())
        },
        Coating::IdealAr => Ok(()),
        Coating::IdealMirror => Ok(()),
        Coating::IdealBeamsplitter => Ok(()),
    }
}

// How a coating beside so many layers is refused: 1, then 3.
fn check_known(
    coating: SurfaceCoating,
    count: usize,
    n_incident: f64,
    n_substrate: f64,
    angle_incident_rad: f64,
    wavelength_nm: f64,
) -> Result<(), Refusal>
    ensures { (beside : List Layer.ThinFilmLayer) → length beside ≡ count → outcome result ≡ refusal_of (evaluate_surface coating beside n_incident n_substrate angle_incident_rad wavelength_nm) }
{
    if !thin_film_valid::valid(n_incident, n_substrate, angle_incident_rad, wavelength_nm) {
        return Err(Refusal::InvalidParameter);
    }
    match coating {
        SurfaceCoating::Custom(custom) => check_custom(custom, count),
        SurfaceCoating::IdealAr => Ok(()),
        SurfaceCoating::MgF2 {
            design_wavelength_nm: _,
        } => Ok(()),
        SurfaceCoating::BroadbandAr => Ok(()),
        SurfaceCoating::HighReflectanceMirror => Ok(()),
    }
}

// What evaluate refuses with, or nothing where it answers; no layer is read for it.
pub fn check(
    code: u32,
    design_wavelength_nm: f64,
    n_incident: f64,
    n_substrate: f64,
    angle_incident_rad: f64,
    wavelength_nm: f64,
    flat: &[f64],
) -> Result<(), Refusal>
    ensures { outcome result ≡ refusal_of (evaluate code design_wavelength_nm n_incident n_substrate angle_incident_rad wavelength_nm flat.now) }
{
    if flat.len() % 3 != 0 {
        return Err(Refusal::InvalidParameter);
    }
    match coating_of(code, design_wavelength_nm) {
        Some(coating) => check_known(
            coating,
            flat.len() / 3,
            n_incident,
            n_substrate,
            angle_incident_rad,
            wavelength_nm,
        ),
        None => Err(Refusal::InvalidParameter),
    }
}
