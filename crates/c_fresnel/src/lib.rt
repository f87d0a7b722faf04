// The Fresnel equations for callers in C: fresnel.rs, and the Jones matrices of a bare surface, in a list that was lent.
#![tactic(auto)]

ghost use Rattle.std.specs.Prelude.{◌≡◌};
ghost use Rattle.fresnel.specs.Fresnel.{fresnel_dielectric, fresnel_unpolarized, schlick_approx};
ghost use Rattle.polarization.specs.Surface.{surface_fresnel_jones};
ghost use Rattle.c_call.specs.Call.{done, written, answered};
ghost use Rattle.c_call.specs.Layout.{alone};
ghost use Rattle.c_fresnel.specs.Fresnel.{reflectances, totals, matrices};

// Rs and Rp at the front of a list. Returns 2, or 8 for a list that is too short.
pub fn fresnel_dielectric(cos_theta_i: f64, n1: f64, n2: f64, list: &mut [f64]) -> u64
    ensures { done result list.new ≡ written (reflectances (fresnel_dielectric cos_theta_i n1 n2)) list.old }
{
    let r = fresnel::fresnel_dielectric(cos_theta_i, n1, n2);
    c_call::put_both(2, r.rs, r.rp, list)
}

// R and T of unpolarized light. Returns 2, or 8.
pub fn fresnel_unpolarized(cos_theta_i: f64, n1: f64, n2: f64, list: &mut [f64]) -> u64
    ensures { done result list.new ≡ written (totals (fresnel_unpolarized cos_theta_i n1 n2)) list.old }
{
    let r = fresnel::fresnel_unpolarized(cos_theta_i, n1, n2);
    c_call::put_both(2, r.r_total, r.t_total, list)
}

// Schlick's approximation. Returns 1, or 8.
pub fn schlick_approx(cos_theta_i: f64, n1: f64, n2: f64, list: &mut [f64]) -> u64
    ensures { done result list.new ≡ written (alone (schlick_approx cos_theta_i n1 n2)) list.old }
{
    c_call::put_one(fresnel::schlick_approx(cos_theta_i, n1, n2), list)
}

// The Jones matrices of a bare surface, of the reflected light and of the transmitted. Returns 16, or a refusal: 1,
// then 8.
pub fn surface_fresnel_jones(n1: f64, n2: f64, angle_i_rad: f64, list: &mut [f64]) -> u64
    ensures { done result list.new ≡ answered matrices (surface_fresnel_jones n1 n2 angle_i_rad) list.old }
{
    match polarization::surface_fresnel_jones(n1, n2, angle_i_rad) {
        Ok(surface) => {
            let reflection = surface.reflection;
            let transmission = surface.transmission;
            c_call::put_two_jones(reflection, transmission, list)
        }
        Err(r) => c_call::packed(r),
    }
}
