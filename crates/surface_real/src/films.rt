// Up to 16 films at once, from their media: the admittances and the phase thickness of each stand in arrays, in the order of
// the layers. The series of the phases and the divisions go two at a time; of films that take turns, as in H L H L, two are
// worked out.
ghost use Rattle.std.specs.Prelude.{◌≡◌, ℕ, ◌+◌, ◌≤◌, ◌<◌, T};
ghost use Rattle.math_waves.specs.Waves.{written, at_most_16};
ghost use Rattle.surface_real.specs.Internal.{over};
ghost use Rattle.surface_real.specs.InternalFilms.{at, film_at, film_here, film_place, joined};

use crate::{Film, Medium, Stack};

// As many angles as so many films take: four go at once, and sixteen in another, quicker way, so that fewer are no
// quicker.
fn angle_count(films: usize) -> usize
    requires { films ≤ 16 }
    ensures { (films ≤ result) × (result ≤ 16) }
{
    if films < 4 {
        4
    } else if films > 8 {
        16
    } else {
        films
    }
}

// The sines of the first films over their admittances.
fn quotients(
    sin: &[f64; 16],
    eta_s: &[f64; 16],
    eta_p: &[f64; 16],
    count: usize,
    y_s: &mut [f64; 16],
    y_p: &mut [f64; 16],
)
    requires { count ≤ 16 }
    ensures { (y_s.new ≡ written (λ i. over (at sin.now i) (at eta_s.now i)) count y_s.old) × (y_p.new ≡ written (λ i. over (at sin.now i) (at eta_p.now i)) count y_p.old) }
{
    for i in 0..count {
        y_s[i] = crate::over(sin[i], eta_s[i]);
        y_p[i] = crate::over(sin[i], eta_p[i]);
    }
}

// Where the film of the layer at a place stands, of so many that are worked out.
fn film_place(j: usize, films: usize) -> usize
    ensures { result ≡ film_place j films }
{
    if j < films { j } else { j % 2 }
}

// The films of count layers, from the first or from the last, each joined to the product of those before it.
fn join_films(
    count: usize,
    films: usize,
    reversed: bool,
    sin: &[f64; 16],
    cos: &[f64; 16],
    eta_s: &[f64; 16],
    eta_p: &[f64; 16],
    y_s: &[f64; 16],
    y_p: &[f64; 16],
    stack: Stack,
) -> Stack
    requires { count ≤ 16 }
    ensures { result ≡ joined (λ j. film_here sin.now cos.now eta_s.now eta_p.now y_s.now y_p.now (film_place j films)) reversed count count stack }
{
    let mut product = stack;
    for i in 0..count {
        let j = film_place(thin_film_layers::nth_index(reversed, count, i), films);
        let film = Film {
            cos: cos[j],
            y_s: y_s[j],
            z_s: sin[j] * eta_s[j],
            y_p: y_p[j],
            z_p: sin[j] * eta_p[j],
        };
        product = crate::join(product, film);
    }
    product
}

// Whether each of count films is the last but one again, by the bits of its medium.
fn take_turns(eta_s: &[f64; 16], eta_p: &[f64; 16], delta: &[f64; 16], count: usize) -> bool
    requires { count ≤ 16 }
    ensures { T result → (i : ℕ) → i + 2 < count → film_at eta_s.now eta_p.now delta.now (i + 2) ≡ film_at eta_s.now eta_p.now delta.now i }
{
    for i in 2..count {
        let medium = Medium {
            eta_s: eta_s[i],
            eta_p: eta_p[i],
            delta: delta[i],
        };
        let earlier = Medium {
            eta_s: eta_s[i - 2],
            eta_p: eta_p[i - 2],
            delta: delta[i - 2],
        };
        if !crate::same_medium(medium, earlier) {
            return false;
        }
    }
    true
}

// How many of count films are to be worked out.
fn film_count(eta_s: &[f64; 16], eta_p: &[f64; 16], delta: &[f64; 16], count: usize) -> usize
    requires { count ≤ 16 }
    ensures { (result ≤ count) × ((j : ℕ) → j < count → (film_place j result < result) × (film_at eta_s.now eta_p.now delta.now (film_place j result) ≡ film_at eta_s.now eta_p.now delta.now j)) }
{
    if count > 2 {
        if take_turns(eta_s, eta_p, delta, count) {
            return 2;
        }
    }
    count
}

// One or two films, one by one: for so few the arrays do not pay.
fn join_each(
    eta_s: &[f64; 16],
    eta_p: &[f64; 16],
    delta: &[f64; 16],
    count: usize,
    reversed: bool,
    stack: Stack,
) -> Stack
    requires { count ≤ 16 }
    ensures { result ≡ joined (film_at eta_s.now eta_p.now delta.now) reversed count count stack }
{
    let mut product = stack;
    for i in 0..count {
        let j = thin_film_layers::nth_index(reversed, count, i);
        let wave = math_trig::sin_cos(delta[j]);
        let film = crate::film_in(eta_s[j], eta_p[j], wave.sin, wave.cos);
        product = crate::join(product, film);
    }
    product
}

// Films worked out together.
fn join_together(
    eta_s: &[f64; 16],
    eta_p: &[f64; 16],
    delta: &[f64; 16],
    count: usize,
    reversed: bool,
    stack: Stack,
) -> Stack
    requires { count ≤ 16 }
    ensures { result ≡ joined (film_at eta_s.now eta_p.now delta.now) reversed count count stack }
{
    let films = film_count(eta_s, eta_p, delta, count);
    let mut sin = [1.0; 16];
    let mut cos = [1.0; 16];
    let mut y_s = [1.0; 16];
    let mut y_p = [1.0; 16];
    math_waves::sin_cos(delta, angle_count(films), &mut sin, &mut cos);
    quotients(&sin, eta_s, eta_p, films, &mut y_s, &mut y_p);
    join_films(
        count, films, reversed, &sin, &cos, eta_s, eta_p, &y_s, &y_p, stack,
    )
}

// The films of the first count of 16 media, of all where count is more, joined to a product: from the first on, or from the
// last where light meets them from the far side.
pub fn join_all(
    eta_s: &[f64; 16],
    eta_p: &[f64; 16],
    delta: &[f64; 16],
    count: usize,
    reversed: bool,
    stack: Stack,
) -> Stack
    ensures { result ≡ joined (film_at eta_s.now eta_p.now delta.now) reversed (at_most_16 count) (at_most_16 count) stack }
{
    let few = if count < 16 { count } else { 16 };
    if few <= 2 {
        return join_each(eta_s, eta_p, delta, few, reversed, stack);
    }
    join_together(eta_s, eta_p, delta, few, reversed, stack)
}
