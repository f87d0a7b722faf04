// dihkelu_quarter_waves: the count is returned, and what is over is written to the number that was lent.
#![tactic(auto)]

ghost use Rattle.std.specs.Prelude.{◌≡◌, [], ◌∷◌};
ghost use Rattle.c_call.specs.Call.{done, answered};
ghost use Rattle.quarter_waves.specs.Waves.{quarter_waves};
ghost use Rattle.c_quarter_waves.specs.Waves.{counted};

// The whole quarter waves of n * thickness; or a refusal: 14. One number that is lent is a list of one.
pub fn quarter_waves(n: f64, thickness_nm: f64, wavelength_nm: f64, remainder_nm: &mut f64) -> u64
    ensures { done result (remainder_nm.new ∷ []) ≡ answered counted (quarter_waves n thickness_nm wavelength_nm) (remainder_nm.old ∷ []) }
{
    match quarter_waves::quarter_waves(n, thickness_nm, wavelength_nm) {
        Ok(waves) => {
            *remainder_nm = waves.remainder_nm;
            waves.count as u64
        }
        Err(r) => c_call::packed(r),
    }
}
