// The powers of a coated surface over real numbers, for a run: the quick way where no film absorbs. Each film is
// [[cos, i y], [i z, cos]] then, and so is each product. What the quick way does not cover makes a NaN, and a NaN or an
// infinity stays to the end: the powers are known where the last numbers are finite, and are those of thin_film_solver.
#![tactic(auto)]

ghost use Rattle.std.specs.Prelude.{◌≡◌, T};
ghost use Rattle.surface_real.specs.Internal.{over, real_part, root, cos_theta, medium_of, film_in, times, join, no_films, cos_theta_sub, power, finish, no_recent, Again};

use surface::Powers;
use thin_film_complex::Complex;
use thin_film_solver::{Incidence, ThinFilmLayer};

pub mod films;
pub mod presets;

// ---- films

// A film's matrices for s and for p.
#[derive(Clone, Copy)]
pub struct Film {
    pub cos: f64,
    pub y_s: f64,
    pub z_s: f64,
    pub y_p: f64,
    pub z_p: f64,
}

// x / y as Complex::div divides.
fn over(x: f64, y: f64) -> f64
    ensures { result ≡ over x y }
{
    let denom = y * y;
    if denom < 1e-28 {
        return 0.0 / 0.0;
    }
    (x * y) / denom
}

// A number whose imaginary part is a zero.
pub fn real_part(z: Complex) -> f64
    ensures { result ≡ real_part z }
{
    if z.im == 0.0 { z.re } else { 0.0 / 0.0 }
}

// A guess at the root of h from 1/2 to 1, of which nothing is proved: a quartic for 1 over the root, and two better ones
// from it.
fn guess(h: f64) -> f64 {
    let square = h * h;
    let first = (2.9228837662011293 - 5.4349775452710505 * h)
        + square * ((6.719651141032791 - 4.331924622358352 * h) + 1.1244305836496429 * square);
    let left = 1.0 - h * first * first;
    let r = first + first * left * (0.5 + 0.375 * left);
    let s = h * r;
    let high = (s + 201326592.0) - 201326592.0;
    let over = (h - high * high) - (s + high) * (s - high);
    s + over * (0.5 * r)
}

// The root of a number from 2^-10 to 2^10, as Complex::sqrt takes it.
fn root(x: f64) -> f64
    ensures { result ≡ root x }
{
    if x >= 0.0009765625 {
        if x <= 1024.0 {
            math_sqrt::sqrt_guessed(ieee::max((x + x) / 2.0, 0.0), guess(x))
        } else {
            0.0 / 0.0
        }
    } else {
        0.0 / 0.0
    }
}

// cos(theta) in a film that does not absorb.
fn cos_theta(snell: f64, layer: ThinFilmLayer) -> f64
    ensures { result ≡ cos_theta snell layer }
{
    let sin = over(snell, layer.n);
    if layer.k == 0.0 {
        root(1.0 - sin * sin)
    } else {
        0.0 / 0.0
    }
}

// The admittances of a film that does not absorb, and its phase thickness.
#[derive(Clone, Copy)]
pub struct Medium {
    pub eta_s: f64,
    pub eta_p: f64,
    pub delta: f64,
}

pub fn medium_of(light: Incidence, layer: ThinFilmLayer) -> Medium
    ensures { result ≡ medium_of light.snell light.wavelength_nm layer }
{
    let cos = cos_theta(light.snell, layer);
    let eta_s = layer.n * cos;
    let eta_p = over(layer.n, cos);
    let factor = 2.0 * 3.141592653589793 * layer.thickness_nm / light.wavelength_nm;
    Medium {
        eta_s,
        eta_p,
        delta: eta_s * factor,
    }
}

// A film's matrices, from its admittances and the sine and cosine of its phase thickness.
fn film_in(eta_s: f64, eta_p: f64, sin: f64, cos: f64) -> Film
    ensures { result ≡ film_in eta_s eta_p sin cos }
{
    Film {
        cos,
        y_s: over(sin, eta_s),
        z_s: sin * eta_s,
        y_p: over(sin, eta_p),
        z_p: sin * eta_p,
    }
}

// ---- products

// [[a, i b], [i c, d]]
#[derive(Clone, Copy)]
pub struct Product {
    pub a: f64,
    pub b: f64,
    pub c: f64,
    pub d: f64,
}

// The products for s and for p.
#[derive(Clone, Copy)]
pub struct Stack {
    pub s: Product,
    pub p: Product,
}

// A product, times a film.
pub fn times(m: Product, cos: f64, y: f64, z: f64) -> Product
    ensures { result ≡ times m cos y z }
{
    Product {
        a: m.a * cos - m.b * z,
        b: m.a * y + m.b * cos,
        c: m.c * cos + m.d * z,
        d: m.d * cos - m.c * y,
    }
}

// One film more.
pub fn join(stack: Stack, film: Film) -> Stack
    ensures { result ≡ join stack film }
{
    let s = stack.s;
    let p = stack.p;
    let next_s = times(s, film.cos, film.y_s, film.z_s);
    let next_p = times(p, film.cos, film.y_p, film.z_p);
    Stack {
        s: next_s,
        p: next_p,
    }
}

// Before the first film.
pub fn no_films() -> Stack
    ensures { result ≡ no_films }
{
    let one = Product {
        a: 1.0,
        b: 0.0,
        c: 0.0,
        d: 1.0,
    };
    Stack { s: one, p: one }
}

// ---- powers

// What is reflected and what is transmitted, before they are clamped.
#[derive(Clone, Copy)]
pub struct Shares {
    pub r: f64,
    pub t: f64,
}

// Those of a product, between the admittances eta0 and eta.
fn power(m: Product, eta0: f64, eta: f64) -> Shares
    ensures { result ≡ power m eta0 eta }
{
    let b_re = eta0 * m.a;
    let b_im = eta0 * (m.b * eta);
    let c_re = m.d * eta;
    let num_re = b_re - c_re;
    let num_im = b_im - m.c;
    let den_re = b_re + c_re;
    let den_im = b_im + m.c;
    let denom = den_re * den_re + den_im * den_im;
    if denom < 1e-28 {
        return Shares {
            r: 0.0 / 0.0,
            t: 0.0 / 0.0,
        };
    }
    let r_re = (num_re * den_re + num_im * den_im) / denom;
    let r_im = (num_im * den_re - num_re * den_im) / denom;
    let t_re = (eta0 * 2.0 * den_re) / denom;
    let t_im = -(eta0 * 2.0 * den_im) / denom;
    Shares {
        r: r_re * r_re + r_im * r_im,
        t: eta / eta0 * (t_re * t_re + t_im * t_im),
    }
}

// cos(theta) in the substrate, up to a sine of 1.
pub fn cos_theta_sub(sin_theta_sub: f64) -> f64
    ensures { result ≡ cos_theta_sub sin_theta_sub }
{
    if ieee::abs(sin_theta_sub) <= 1.0 {
        math_sqrt::sqrt(ieee::max(1.0 - sin_theta_sub * sin_theta_sub, 0.0))
    } else {
        0.0 / 0.0
    }
}

// Powers, and whether they are known.
#[derive(Clone, Copy)]
pub struct Known {
    pub known: bool,
    pub powers: Powers,
}

// The powers, from the products of all films.
pub fn finish(light: Incidence, stack: Stack) -> Known
    ensures { result ≡ finish light stack }
{
    let cos = Complex::real(cos_theta_sub(light.snell / light.n_substrate));
    let n_sub = Complex::real(light.n_substrate);
    let eta_s = real_part(n_sub.mul(cos));
    let eta_p = real_part(n_sub.div(cos));
    let eta0_s = light.n_incident * light.cos_theta0;
    let eta0_p = light.n_incident / ieee::max(light.cos_theta0, 1e-12);
    let ms = stack.s;
    let mp = stack.p;
    let s = power(ms, eta0_s, eta_s);
    let p = power(mp, eta0_p, eta_p);
    let powers = Powers {
        reflectance_s: ieee::clamp(s.r, 0.0, 1.0),
        reflectance_p: ieee::clamp(p.r, 0.0, 1.0),
        transmittance_s: ieee::clamp(s.t, 0.0, 1.0),
        transmittance_p: ieee::clamp(p.t, 0.0, 1.0),
    };
    let known = ieee::is_finite((s.r + s.t) + (p.r + p.t));
    Known { known, powers }
}

// ---- layers that come again

// Whether two numbers have the same bits; a NaN is the same as no number.
fn same_number(x: f64, y: f64) -> bool
    ensures { T result → x ≡ y }
{
    if x == y {
        f64::to_bits(x) == f64::to_bits(y)
    } else {
        false
    }
}

// Whether two media have the same bits.
fn same_medium(a: Medium, b: Medium) -> bool
    ensures { T result → a ≡ b }
{
    if same_number(a.delta, b.delta) {
        if same_number(a.eta_s, b.eta_s) {
            same_number(a.eta_p, b.eta_p)
        } else {
            false
        }
    } else {
        false
    }
}

// Whether two layers have the same bits.
fn same_layer(a: ThinFilmLayer, b: ThinFilmLayer) -> bool
    ensures { T result → a ≡ b }
{
    if same_number(a.n, b.n) {
        if same_number(a.thickness_nm, b.thickness_nm) {
            same_number(a.k, b.k)
        } else {
            false
        }
    } else {
        false
    }
}

// A layer with its medium.
#[derive(Clone, Copy)]
pub struct Seen {
    pub layer: ThinFilmLayer,
    pub medium: Medium,
}

// The last two layers that were read: of layers that take turns, as in H L H L, two media are worked out.
#[derive(Clone, Copy)]
pub struct Recent {
    pub earlier: Seen,
    pub last: Seen,
}

// Before the first layer: a layer that is no number is like no other.
pub fn no_recent() -> Recent
    ensures { result ≡ no_recent }
{
    let none = 0.0 / 0.0;
    let layer = ThinFilmLayer {
        n: none,
        k: none,
        thickness_nm: none,
    };
    let medium = Medium {
        eta_s: none,
        eta_p: none,
        delta: none,
    };
    let seen = Seen { layer, medium };
    Recent {
        earlier: seen,
        last: seen,
    }
}

// The medium of a layer, which can be that of the last layer but one.
fn medium_again(light: Incidence, layer: ThinFilmLayer, earlier: Seen) -> Medium
    ensures { Again light.snell light.wavelength_nm layer earlier result }
{
    let known = earlier.layer;
    if same_layer(layer, known) {
        let medium = earlier.medium;
        medium
    } else {
        medium_of(light, layer)
    }
}

// One layer more.
pub fn turn(light: Incidence, layer: ThinFilmLayer, recent: Recent) -> Recent
    ensures { (result.earlier ≡ recent.last) × (result.last.layer ≡ layer) × Again light.snell light.wavelength_nm layer recent.earlier result.last.medium }
{
    let earlier = recent.earlier;
    let last = recent.last;
    let medium = medium_again(light, layer, earlier);
    Recent {
        earlier: last,
        last: Seen { layer, medium },
    }
}
