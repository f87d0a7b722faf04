// The Fresnel equations of fresnel.rs for dielectric media, and Schlick's approximation. Each is for
// every f64 and never refuses.
#![tactic(auto)]

ghost use Rattle.std.specs.Prelude.{◌≡◌};
ghost use Rattle.fresnel.specs.Fresnel.{sin2_t, cos_t, power, refracted, fresnel_dielectric, fresnel_unpolarized, schlick, schlick_approx};

// Power reflectances of the two polarizations.
#[derive(Drop)]
pub struct Reflectances {
    pub rs: f64,
    pub rp: f64,
}

// Reflectance and transmittance of unpolarized light.
#[derive(Drop)]
pub struct Unpolarized {
    pub r_total: f64,
    pub t_total: f64,
}

// The square of the refracted ray's sine: 1 and above is total internal reflection.
fn sin2_t(cos_i: f64, n1: f64, n2: f64) -> f64
    ensures { result ≡ sin2_t cos_i n1 n2 }
{
    let eta = n1 / n2;
    eta * eta * ieee::max(1.0 - cos_i * cos_i, 0.0)
}

// The refracted ray's cosine.
fn cos_t(sin2_t: f64) -> f64
    ensures { result ≡ cos_t sin2_t }
{
    math_sqrt::sqrt(ieee::max(1.0 - sin2_t, 0.0))
}

// The power of an amplitude num / den.
fn power(num: f64, den: f64) -> f64
    ensures { result ≡ power num den }
{
    if ieee::abs(den) < 1e-30 {
        0.0
    } else {
        ieee::clamp(ieee::powi2(num / den), 0.0, 1.0)
    }
}

// Rs and Rp where the light is refracted.
fn refracted(cos_i: f64, cos_t: f64, n1: f64, n2: f64) -> Reflectances
    ensures { result ≡ refracted cos_i cos_t n1 n2 }
{
    let rs_num = n1 * cos_i - n2 * cos_t;
    let rs_den = n1 * cos_i + n2 * cos_t;
    let rs = power(rs_num, rs_den);
    let rp_num = n2 * cos_i - n1 * cos_t;
    let rp_den = n2 * cos_i + n1 * cos_t;
    let rp = power(rp_num, rp_den);
    Reflectances { rs, rp }
}

// Rs and Rp of a dielectric interface; the cosine is clamped to 0..1.
pub fn fresnel_dielectric(cos_theta_i: f64, n1: f64, n2: f64) -> Reflectances
    ensures { result ≡ fresnel_dielectric cos_theta_i n1 n2 }
{
    let cos_i = ieee::clamp(cos_theta_i, 0.0, 1.0);
    let sin2_t = sin2_t(cos_i, n1, n2);
    if sin2_t >= 1.0 {
        return Reflectances { rs: 1.0, rp: 1.0 };
    }
    refracted(cos_i, cos_t(sin2_t), n1, n2)
}

// The reflectance (Rs + Rp) / 2 of unpolarized light, and what is left of it.
pub fn fresnel_unpolarized(cos_theta_i: f64, n1: f64, n2: f64) -> Unpolarized
    ensures { result ≡ fresnel_unpolarized cos_theta_i n1 n2 }
{
    let r = fresnel_dielectric(cos_theta_i, n1, n2);
    let r_total = (r.rs + r.rp) * 0.5;
    let t_total = ieee::clamp(1.0 - r_total, 0.0, 1.0);
    Unpolarized { r_total, t_total }
}

// R0 + (1 - R0) (1 - cos)^5
fn schlick(r0: f64, cos_theta: f64) -> f64
    ensures { result ≡ schlick r0 cos_theta }
{
    let x = ieee::clamp(1.0 - cos_theta, 0.0, 1.0);
    ieee::clamp(r0 + (1.0 - r0) * ieee::powi5(x), 0.0, 1.0)
}

// Schlick's approximation of the unpolarized reflectance: by the incident cosine where n1 <= n2, else
// by the refracted one.
pub fn schlick_approx(cos_theta_i: f64, n1: f64, n2: f64) -> f64
    ensures { result ≡ schlick_approx cos_theta_i n1 n2 }
{
    let cos_i = ieee::clamp(cos_theta_i, 0.0, 1.0);
    let r0 = ieee::powi2((n1 - n2) / (n1 + n2));
    if n1 <= n2 {
        return schlick(r0, cos_i);
    }
    let sin2 = sin2_t(cos_i, n1, n2);
    if sin2 >= 1.0 {
        return 1.0;
    }
    schlick(r0, cos_t(sin2))
}
