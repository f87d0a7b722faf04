// The whole response of a coated surface over real numbers: the quick way where no film absorbs, from the products of
// surface_real. A zero's sign can be another than in thin_film_solver, and only a zero's: the response is known where
// the powers are finite and no part of an amplitude is a zero, and is that of thin_film_solver then.
#![tactic(auto)]

ghost use Rattle.std.specs.Prelude.{◌≡◌, []};
ghost use Rattle.thin_film_solver.specs.Internal.{solved};
ghost use Rattle.thin_film_layers.specs.Evaluation.{ordered};
ghost use Rattle.thin_film.specs.Coating.{layers_of};
ghost use Rattle.response_real.specs.Internal.{shares_of, amplitudes, no_zero, plain, certain, polarized, finish};

use surface_real::{Product, Shares, Stack, presets};
use thin_film::{SurfaceCoating, reading};
use thin_film_complex::Complex;
use thin_film_solver::{CoatingResponse, Incidence, Polarized};

// ---- amplitudes

// What is reflected and what is transmitted: the amplitudes, and their shares before they are clamped.
#[derive(Clone, Copy)]
pub struct Amplitudes {
    pub r: Complex,
    pub t: Complex,
    pub shares: Shares,
}

// The shares of two amplitudes with this denominator, between the admittances eta0 and eta.
fn shares_of(r: Complex, t: Complex, eta0: f64, eta: f64, denom: f64) -> Shares
    ensures { result ≡ shares_of r t eta0 eta denom }
{
    if denom < 1e-28 {
        return Shares {
            r: 0.0 / 0.0,
            t: 0.0 / 0.0,
        };
    }
    Shares {
        r: r.norm_sq(),
        t: eta / eta0 * t.norm_sq(),
    }
}

// The amplitudes of a product, between the admittances eta0 and eta.
fn amplitudes_of(m: Product, eta0: f64, eta: f64) -> Amplitudes
    ensures { result ≡ amplitudes m eta0 eta }
{
    let b_re = eta0 * m.a;
    let b_im = eta0 * (m.b * eta);
    let c_re = m.d * eta;
    let num_re = b_re - c_re;
    let num_im = b_im - m.c;
    let den_re = b_re + c_re;
    let den_im = b_im + m.c;
    let denom = den_re * den_re + den_im * den_im;
    let r = Complex {
        re: (num_re * den_re + num_im * den_im) / denom,
        im: (num_im * den_re - num_re * den_im) / denom,
    };
    let t = Complex {
        re: (eta0 * 2.0 * den_re) / denom,
        im: -(eta0 * 2.0 * den_im) / denom,
    };
    let shares = shares_of(r, t, eta0, eta, denom);
    Amplitudes { r, t, shares }
}

// ---- the response

// Whether no part is a zero.
fn no_zero(z: Complex) -> bool
    ensures { result ≡ no_zero z }
{
    if z.re == 0.0 { false } else { !(z.im == 0.0) }
}

// Whether no part of either amplitude is a zero.
fn plain(k: Amplitudes) -> bool
    ensures { result ≡ plain k }
{
    let r = k.r;
    let t = k.t;
    if no_zero(r) { no_zero(t) } else { false }
}

// Whether a zero's sign can be told from none of this: the shares are finite, and no part is a zero.
fn certain(s: Amplitudes, p: Amplitudes) -> bool
    ensures { result ≡ certain s p }
{
    let of_s = s.shares;
    let of_p = p.shares;
    if ieee::is_finite((of_s.r + of_s.t) + (of_p.r + of_p.t)) {
        if plain(s) { plain(p) } else { false }
    } else {
        false
    }
}

// The answers for one polarization.
fn polarized(k: Amplitudes) -> Polarized
    ensures { result ≡ polarized k }
{
    let r = k.r;
    let t = k.t;
    let shares = k.shares;
    Polarized {
        r,
        t,
        reflectance: ieee::clamp(shares.r, 0.0, 1.0),
        transmittance: ieee::clamp(shares.t, 0.0, 1.0),
        phase: r.arg(),
    }
}

// A response, and whether it is known.
#[derive(Clone, Copy)]
pub struct Known {
    pub known: bool,
    pub response: CoatingResponse,
}

// The response, from the products of all films.
pub fn finish(light: Incidence, stack: Stack) -> Known
    ensures { result ≡ finish light stack }
{
    let cos = Complex::real(surface_real::cos_theta_sub(light.snell / light.n_substrate));
    let n_sub = Complex::real(light.n_substrate);
    let eta_s = surface_real::real_part(n_sub.mul(cos));
    let eta_p = surface_real::real_part(n_sub.div(cos));
    let eta0_s = light.n_incident * light.cos_theta0;
    let eta0_p = light.n_incident / ieee::max(light.cos_theta0, 1e-12);
    let ms = stack.s;
    let mp = stack.p;
    let s = amplitudes_of(ms, eta0_s, eta_s);
    let p = amplitudes_of(mp, eta0_p, eta_p);
    if certain(s, p) {
        let of_s = polarized(s);
        let of_p = polarized(p);
        let response = thin_film_solver::respond(of_s, of_p);
        Known {
            known: true,
            response,
        }
    } else {
        let response = thin_film_solver::no_response();
        Known {
            known: false,
            response,
        }
    }
}

// The response with a coating's own layers, in their order or reversed: over real numbers where it is known so, or else
// layer by layer.
pub fn solve_own(coating: SurfaceCoating, reversed: bool, light: Incidence) -> CoatingResponse
    ensures { result ≡ solved light (ordered reversed (layers_of coating [])) }
{
    let quick = finish(light, presets::stack_of(coating, reversed, light));
    if quick.known {
        let response = quick.response;
        response
    } else {
        reading::solve_own(coating, reversed, light)
    }
}
