// The transfer-matrix method of thin_film.rs, one layer at a time and by value.
//
// Whoever has layers, in a list, by index or in a sheet, begins with two identity matrices, takes
// step_s and step_p for each layer, from the incident medium to the substrate, and calls finish.
#![tactic(auto)]

ghost use Rattle.std.specs.Prelude.{◌≡◌};
ghost use Rattle.thin_film_solver.specs.Solve.{cos_theta_sub, solve, respond, no_response, unpolarized_reflectance, unpolarized_transmittance, dielectric};
ghost use Rattle.thin_film_solver.specs.Absorptance.{absorptance};
ghost use Rattle.thin_film_solver.specs.Internal.{incidence, terms_of, film, step_s, step_p, finish};

use thin_film_complex::Complex;
use thin_film_matrix::Phase;

// ---- layers and responses

// One isotropic layer: refractive index n, extinction coefficient k, thickness in nanometres.
#[derive(Clone, Copy)]
pub struct ThinFilmLayer {
    pub n: f64,
    pub k: f64,
    pub thickness_nm: f64,
}

impl ThinFilmLayer {
    // A lossless layer.
    pub fn dielectric(n: f64, thickness_nm: f64) -> Self
        ensures { result ≡ dielectric n thickness_nm }
    {
        Self {
            n,
            k: 0.0,
            thickness_nm,
        }
    }

    // An absorbing or metallic layer.
    pub fn absorbing(n: f64, k: f64, thickness_nm: f64) -> Self
        ensures { result ≡ record { n = n; k = k; thickness_nm = thickness_nm } }
    {
        Self { n, k, thickness_nm }
    }
}

// Amplitudes, powers and phases of a coating at one wavelength and angle, and what stays in the glass.
#[derive(Clone, Copy)]
pub struct CoatingResponse {
    pub rs: Complex,
    pub rp: Complex,
    pub ts: Complex,
    pub tp: Complex,
    pub reflectance_s: f64,
    pub reflectance_p: f64,
    pub transmittance_s: f64,
    pub transmittance_p: f64,
    pub phase_rs_rad: f64,
    pub phase_rp_rad: f64,
    pub absorptance_s: f64,
    pub absorptance_p: f64,
}

impl CoatingResponse {
    pub fn unpolarized_reflectance(self) -> f64
        ensures { result ≡ unpolarized_reflectance self }
    {
        (self.reflectance_s + self.reflectance_p) * 0.5
    }

    pub fn unpolarized_transmittance(self) -> f64
        ensures { result ≡ unpolarized_transmittance self }
    {
        (self.transmittance_s + self.transmittance_p) * 0.5
    }
}

// ---- the layers

// What the two media, the angle and the wavelength fix before any layer is read. snell is
// n_incident * sin_theta0.
#[derive(Clone, Copy)]
pub struct Incidence {
    pub n_incident: f64,
    pub n_substrate: f64,
    pub cos_theta0: f64,
    pub snell: f64,
    pub wavelength_nm: f64,
}

impl Incidence {
    pub fn new(
        n_incident: f64,
        n_substrate: f64,
        angle_incident_rad: f64,
        wavelength_nm: f64,
    ) -> Self
        ensures { result ≡ incidence n_incident n_substrate angle_incident_rad wavelength_nm }
    {
        let theta0 = math_trig::sin_cos(angle_incident_rad);
        Self {
            n_incident,
            n_substrate,
            cos_theta0: theta0.cos,
            snell: n_incident * theta0.sin,
            wavelength_nm,
        }
    }
}

// What both matrices of a layer are made of.
#[derive(Clone, Copy)]
pub struct Terms {
    pub phase: Phase,
    pub eta_s: Complex,
    pub eta_p: Complex,
}

// Those of a layer.
pub fn terms_of(light: Incidence, layer: ThinFilmLayer) -> Terms
    ensures { result ≡ terms_of light.snell light.wavelength_nm layer }
{
    let n_c = Complex::new(layer.n, -layer.k);
    let cos = thin_film_matrix::cos_theta(light.snell, n_c);
    let eta_s = n_c.mul(cos);
    let eta_p = n_c.div(cos);
    let factor = 2.0 * 3.141592653589793 * layer.thickness_nm / light.wavelength_nm;
    let phase = thin_film_matrix::phase_of(eta_s.scale(factor));
    Terms {
        phase,
        eta_s,
        eta_p,
    }
}

// m_layer_s
pub fn layer_s(terms: Terms) -> [[Complex; 2]; 2]
    ensures { result ≡ film terms.phase terms.eta_s }
{
    let phase = terms.phase;
    let eta_s = terms.eta_s;
    thin_film_matrix::characteristic(phase, eta_s)
}

// m_layer_p
pub fn layer_p(terms: Terms) -> [[Complex; 2]; 2]
    ensures { result ≡ film terms.phase terms.eta_p }
{
    let phase = terms.phase;
    let eta_p = terms.eta_p;
    thin_film_matrix::characteristic(phase, eta_p)
}

// ms = mat_mul_2x2(ms, m_layer_s)
pub fn step_s(ms: [[Complex; 2]; 2], terms: Terms) -> [[Complex; 2]; 2]
    ensures { result ≡ step_s ms terms }
{
    thin_film_matrix::mat_mul_2x2(ms, layer_s(terms))
}

// mp = mat_mul_2x2(mp, m_layer_p)
pub fn step_p(mp: [[Complex; 2]; 2], terms: Terms) -> [[Complex; 2]; 2]
    ensures { result ≡ step_p mp terms }
{
    thin_film_matrix::mat_mul_2x2(mp, layer_p(terms))
}

// ---- the answers

// The answers for one polarization.
#[derive(Clone, Copy)]
pub struct Polarized {
    pub r: Complex,
    pub t: Complex,
    pub reflectance: f64,
    pub transmittance: f64,
    pub phase: f64,
}

// [B; C] = M * [1; eta], and what follows from them. eta0 is the incident admittance, eta the
// substrate's.
fn solve(m: [[Complex; 2]; 2], eta0: Complex, eta: Complex) -> Polarized
    ensures { result ≡ solve m eta0 eta }
{
    let m11 = m[0][0];
    let m12 = m[0][1];
    let m21 = m[1][0];
    let m22 = m[1][1];
    let b = m11.add(m12.mul(eta));
    let c = m21.add(m22.mul(eta));
    let num = eta0.mul(b).sub(c);
    let den = eta0.mul(b).add(c);
    let r = num.div(den);
    let t = eta0.scale(2.0).div(den);
    Polarized {
        r,
        t,
        reflectance: ieee::clamp(r.norm_sq(), 0.0, 1.0),
        transmittance: ieee::clamp(eta.re / eta0.re * t.norm_sq(), 0.0, 1.0),
        phase: r.arg(),
    }
}

// cos(theta) in the substrate: beyond a sine of 1 there is total internal reflection.
fn cos_theta_sub(sin_theta_sub: f64) -> Complex
    ensures { result ≡ cos_theta_sub sin_theta_sub }
{
    if ieee::abs(sin_theta_sub) <= 1.0 {
        Complex::real(math_sqrt::sqrt(ieee::max(1.0 - sin_theta_sub * sin_theta_sub, 0.0)))
    } else {
        Complex::new(0.0, -math_sqrt::sqrt(sin_theta_sub * sin_theta_sub - 1.0))
    }
}

// What is neither reflected nor transmitted.
fn absorptance(reflectance: f64, transmittance: f64) -> f64
    ensures { result ≡ absorptance reflectance transmittance }
{
    ieee::clamp((1.0 - reflectance) - transmittance, 0.0, 1.0)
}

// The one maker of a response, from the answers for s and for p.
pub fn respond(s: Polarized, p: Polarized) -> CoatingResponse
    ensures { result ≡ respond s p }
{
    let rs = s.r;
    let rp = p.r;
    let ts = s.t;
    let tp = p.t;
    CoatingResponse {
        rs,
        rp,
        ts,
        tp,
        reflectance_s: s.reflectance,
        reflectance_p: p.reflectance,
        transmittance_s: s.transmittance,
        transmittance_p: p.transmittance,
        phase_rs_rad: s.phase,
        phase_rp_rad: p.phase,
        absorptance_s: absorptance(s.reflectance, s.transmittance),
        absorptance_p: absorptance(p.reflectance, p.transmittance),
    }
}

// The response, from the products of all the layers' matrices.
pub fn finish(light: Incidence, ms: [[Complex; 2]; 2], mp: [[Complex; 2]; 2]) -> CoatingResponse
    ensures { result ≡ finish light ms mp }
{
    let cos = cos_theta_sub(light.snell / light.n_substrate);
    let n_sub = Complex::real(light.n_substrate);
    let eta0_s = Complex::real(light.n_incident * light.cos_theta0);
    let eta0_p = Complex::real(light.n_incident / ieee::max(light.cos_theta0, 1e-12));
    let s = solve(ms, eta0_s, n_sub.mul(cos));
    let p = solve(mp, eta0_p, n_sub.div(cos));
    respond(s, p)
}

// Where there is no response: zero throughout.
pub fn no_response() -> CoatingResponse
    ensures { result ≡ no_response }
{
    let zero = Complex::zero();
    CoatingResponse {
        rs: zero,
        rp: zero,
        ts: zero,
        tp: zero,
        reflectance_s: 0.0,
        reflectance_p: 0.0,
        transmittance_s: 0.0,
        transmittance_p: 0.0,
        phase_rs_rad: 0.0,
        phase_rp_rad: 0.0,
        absorptance_s: 0.0,
        absorptance_p: 0.0,
    }
}
