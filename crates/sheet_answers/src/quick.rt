// A coated surface's films, over real numbers where none absorbs: its powers alone, and its response.
ghost use Rattle.std.specs.Prelude.{◌≡◌, ◌≤◌};
ghost use Rattle.refusal.specs.Outcome.{map, outcome};
ghost use Rattle.sheet.specs.Internal.{next_place, layers_at};
ghost use Rattle.sheet_values.specs.Values.{films};
ghost use Rattle.math_trig.specs.Trig.{sin_cos};
ghost use Rattle.thin_film_solver.specs.Internal.{incidence, solved};
ghost use Rattle.thin_film_layers.specs.Evaluation.{ordered};
ghost use Rattle.thin_film_coating.specs.declared.Coating.TheVariants.{Multilayer};
ghost use Rattle.thin_film.specs.declared.SurfaceCoating.TheVariants.{Custom};
ghost use Rattle.thin_film.specs.Evaluate.{evaluate_surface};
ghost use Rattle.thin_film.specs.Internal.{own_layers};
ghost use Rattle.surface.specs.Answers.{coated_powers};
ghost use Rattle.surface_real.specs.Internal.{no_films, stacked};
ghost use Rattle.surface_real.specs.InternalFilms.{Wrote};
ghost use Rattle.sheet_answers.specs.Internal.{nth_film, reached};

use gate_limits::Surface;
use math_trig::SinCos;
use refusal::Refusal;
use surface::Powers;
use surface_real::Stack;
use thin_film::{SurfaceCoating, reading};
use thin_film_coating::Coating;
use thin_film_layers::Prepared;
use thin_film_solver::{CoatingResponse, Incidence, ThinFilmLayer};

// A layer, and the place after it.
#[derive(Clone, Copy)]
struct Reached {
    layer: ThinFilmLayer,
    next: usize,
}

// Those at a place, at a wavelength: most layers are LAYERs that stand whole.
fn reach(src: &[u8], at: usize, wavelength_nm: f64) -> Reached
    ensures { result ≡ reached wavelength_nm src.now at }
{
    let floats = sheet::plain_floats(src, at);
    if floats.stands {
        let layer = ThinFilmLayer {
            n: floats.first,
            k: floats.second,
            thickness_nm: floats.third,
        };
        return Reached {
            layer,
            next: at + 7,
        };
    }
    let layer = sheet_values::layer_at(src, at, wavelength_nm);
    Reached {
        layer,
        next: sheet::next_place(src, at),
    }
}

// The media of count layers after the block at a place, at a wavelength, in the sheet's order: read in one walk.
fn media_at(
    src: &[u8],
    at: usize,
    count: usize,
    wavelength_nm: f64,
    light: Incidence,
    eta_s: &mut [f64; 16],
    eta_p: &mut [f64; 16],
    delta: &mut [f64; 16],
)
    requires { count ≤ 16 }
    ensures { Wrote light.snell light.wavelength_nm (nth_film wavelength_nm src.now at) count eta_s.old eta_p.old delta.old eta_s.new eta_p.new delta.new }
{
    let mut recent = surface_real::no_recent();
    let mut place = sheet::next_place(src, at);
    for i in 0..count {
        let reached = reach(src, place, wavelength_nm);
        let layer = reached.layer;
        recent = surface_real::turn(light, layer, recent);
        let seen = recent.last;
        let medium = seen.medium;
        eta_s[i] = medium.eta_s;
        eta_p[i] = medium.eta_p;
        delta[i] = medium.delta;
        place = reached.next;
    }
}

// The product of the n films after the block at a place, in their order or reversed.
fn stack_at(
    src: &[u8],
    at: usize,
    n: usize,
    reversed: bool,
    wavelength_nm: f64,
    light: Incidence,
) -> Stack
    requires { n ≤ 16 }
    ensures { result ≡ stacked light.snell light.wavelength_nm no_films (ordered reversed (films wavelength_nm (layers_at src.now (next_place src.now at) n))) }
{
    let mut eta_s = [1.0; 16];
    let mut eta_p = [1.0; 16];
    let mut delta = [1.0; 16];
    media_at(
        src,
        at,
        n,
        wavelength_nm,
        light,
        &mut eta_s,
        &mut eta_p,
        &mut delta,
    );
    let none = surface_real::no_films();
    surface_real::films::join_all(&eta_s, &eta_p, &delta, n, reversed, none)
}

// The powers with the n layers after the block at a place: over real numbers where they are known so, or else from the whole
// response. No admitted sheet has more than 16 layers after a SURFACE.
fn layers_powers(
    src: &[u8],
    at: usize,
    n: usize,
    reversed: bool,
    wavelength_nm: f64,
    light: Incidence,
) -> Powers
    ensures { result ≡ coated_powers (solved light (ordered reversed (films wavelength_nm (layers_at src.now (next_place src.now at) n)))) }
{
    if n <= 16 {
        let stack = stack_at(src, at, n, reversed, wavelength_nm, light);
        let quick = surface_real::finish(light, stack);
        if quick.known {
            let powers = quick.powers;
            return powers;
        }
    }
    surface::coated_powers(crate::solve(src, at, n, reversed, wavelength_nm, light))
}

// The response with the n layers after the block at a place, by the same two ways.
fn layers_response(
    src: &[u8],
    at: usize,
    n: usize,
    reversed: bool,
    wavelength_nm: f64,
    light: Incidence,
) -> CoatingResponse
    ensures { result ≡ solved light (ordered reversed (films wavelength_nm (layers_at src.now (next_place src.now at) n))) }
{
    if n <= 16 {
        let stack = stack_at(src, at, n, reversed, wavelength_nm, light);
        let quick = response_real::finish(light, stack);
        if quick.known {
            let response = quick.response;
            return response;
        }
    }
    crate::solve(src, at, n, reversed, wavelength_nm, light)
}

// The powers with a coating's own layers, or else with the n after the block at a place.
fn powers_with(
    src: &[u8],
    at: usize,
    n: usize,
    coating: SurfaceCoating,
    reversed: bool,
    wavelength_nm: f64,
    light: Incidence,
) -> Powers
    ensures { result ≡ coated_powers (solved light (ordered reversed (own_layers coating (films wavelength_nm (layers_at src.now (next_place src.now at) n))))) }
{
    if reading::own_count(coating) == 0 {
        layers_powers(src, at, n, reversed, wavelength_nm, light)
    } else {
        surface_real::presets::powers_of(coating, reversed, light)
    }
}

// The response with these layers.
pub fn response_with(
    src: &[u8],
    at: usize,
    n: usize,
    coating: SurfaceCoating,
    reversed: bool,
    wavelength_nm: f64,
    light: Incidence,
) -> CoatingResponse
    ensures { result ≡ solved light (ordered reversed (own_layers coating (films wavelength_nm (layers_at src.now (next_place src.now at) n)))) }
{
    if reading::own_count(coating) == 0 {
        layers_response(src, at, n, reversed, wavelength_nm, light)
    } else {
        response_real::solve_own(coating, reversed, light)
    }
}

// The powers of an evaluation that needs no layer after the block.
fn answered(answer: Result<CoatingResponse, Refusal>) -> Result<Powers, Refusal>
    ensures { outcome result ≡ map coated_powers (outcome answer) }
{
    match answer {
        Ok(r) => Ok(surface::coated_powers(r)),
        Err(r) => Err(r),
    }
}

// The powers of a coated surface at a place with the n layers after it.
pub fn coated_powers(
    src: &[u8],
    at: usize,
    n: usize,
    surface: Surface,
    coating: SurfaceCoating,
    wavelength_nm: f64,
) -> Result<Powers, Refusal>
    ensures { outcome result ≡ map coated_powers (evaluate_surface coating (films wavelength_nm (layers_at src.now (next_place src.now at) n)) surface.n_incident surface.n_substrate surface.angle_rad wavelength_nm) }
{
    match reading::prepare(
        coating,
        n,
        surface.n_incident,
        surface.n_substrate,
        surface.angle_rad,
        wavelength_nm,
    ) {
        Prepared::Answered(answer) => answered(answer),
        Prepared::Layers { reversed, light } => Ok(powers_with(
            src,
            at,
            n,
            coating,
            reversed,
            wavelength_nm,
            light,
        )),
    }
}

// The light that meets a surface, from the sine and the cosine of its angle.
fn light_with(surface: Surface, theta: SinCos, wavelength_nm: f64) -> Incidence
    ensures { theta ≡ sin_cos surface.angle_rad → result ≡ incidence surface.n_incident surface.n_substrate surface.angle_rad wavelength_nm }
{
    Incidence {
        n_incident: surface.n_incident,
        n_substrate: surface.n_substrate,
        cos_theta0: theta.cos,
        snell: surface.n_incident * theta.sin,
        wavelength_nm,
    }
}

// The powers of a surface with layers of its own, from the sine and the cosine of its angle.
pub fn custom_powers(
    src: &[u8],
    at: usize,
    n: usize,
    surface: Surface,
    theta: SinCos,
    wavelength_nm: f64,
) -> Result<Powers, Refusal>
    ensures { theta ≡ sin_cos surface.angle_rad → outcome result ≡ map coated_powers (evaluate_surface (Custom Multilayer) (films wavelength_nm (layers_at src.now (next_place src.now at) n)) surface.n_incident surface.n_substrate surface.angle_rad wavelength_nm) }
{
    if n <= 64 {
        if thin_film_valid::valid(
            surface.n_incident,
            surface.n_substrate,
            surface.angle_rad,
            wavelength_nm,
        ) {
            let reversed = surface.n_incident > surface.n_substrate;
            let light = light_with(surface, theta, wavelength_nm);
            return Ok(layers_powers(src, at, n, reversed, wavelength_nm, light));
        }
    }
    let coating = SurfaceCoating::Custom(Coating::Multilayer);
    coated_powers(src, at, n, surface, coating, wavelength_nm)
}
