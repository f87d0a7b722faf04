// The films of a preset coating: its layers come from the code, one by one.
ghost use Rattle.std.specs.Prelude.{◌≡◌, [], ◌≤◌, get_or};
ghost use Rattle.thin_film_solver.specs.Internal.{solved};
ghost use Rattle.thin_film_layers.specs.Evaluation.{ordered, no_layer};
ghost use Rattle.thin_film.specs.Coating.{layers_of};
ghost use Rattle.surface.specs.Answers.{coated_powers};
ghost use Rattle.surface_real.specs.Internal.{no_films, stacked};
ghost use Rattle.surface_real.specs.InternalFilms.{Wrote};

use crate::{Stack, films};
use surface::Powers;
use thin_film::{SurfaceCoating, reading};
use thin_film_solver::Incidence;

// The media of the first count layers of its own, in their order.
fn media(
    coating: SurfaceCoating,
    count: usize,
    light: Incidence,
    eta_s: &mut [f64; 16],
    eta_p: &mut [f64; 16],
    delta: &mut [f64; 16],
)
    requires { count ≤ 16 }
    ensures { Wrote light.snell light.wavelength_nm (λ i. get_or (layers_of coating []) i no_layer) count eta_s.old eta_p.old delta.old eta_s.new eta_p.new delta.new }
{
    let mut recent = crate::no_recent();
    for i in 0..count {
        recent = crate::turn(light, reading::own_layer(coating, i), recent);
        let seen = recent.last;
        let medium = seen.medium;
        eta_s[i] = medium.eta_s;
        eta_p[i] = medium.eta_p;
        delta[i] = medium.delta;
    }
}

// The product of a coating's own films, in their order or reversed.
pub fn stack_of(coating: SurfaceCoating, reversed: bool, light: Incidence) -> Stack
    ensures { result ≡ stacked light.snell light.wavelength_nm no_films (ordered reversed (layers_of coating [])) }
{
    let n = reading::own_count(coating);
    let mut eta_s = [1.0; 16];
    let mut eta_p = [1.0; 16];
    let mut delta = [1.0; 16];
    media(coating, n, light, &mut eta_s, &mut eta_p, &mut delta);
    films::join_all(&eta_s, &eta_p, &delta, n, reversed, crate::no_films())
}

// The powers with a coating's own layers, in their order or reversed: over real numbers where they are known so, or else
// from the whole response.
pub fn powers_of(coating: SurfaceCoating, reversed: bool, light: Incidence) -> Powers
    ensures { result ≡ coated_powers (solved light (ordered reversed (layers_of coating []))) }
{
    let quick = crate::finish(light, stack_of(coating, reversed, light));
    if quick.known {
        let powers = quick.powers;
        powers
    } else {
        surface::coated_powers(reading::solve_own(coating, reversed, light))
    }
}
