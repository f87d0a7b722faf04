// dihkelu_reflectance_range: a low and a high reflectance, in a list that was lent.
#![tactic(auto)]

ghost use Rattle.std.specs.Prelude.{◌≡◌};
ghost use Rattle.c_call.specs.Call.{done, answered};
ghost use Rattle.reflectance_range.specs.Range.{reflectance_range};
ghost use Rattle.c_range.specs.Range.{ranged};

// The two numbers at the front of a list. Returns their count, or a refusal: 13, then 8 for a list
// that is too short.
pub fn reflectance_range(
    n1_low: f64,
    n1_high: f64,
    n2_low: f64,
    n2_high: f64,
    list: &mut [f64],
) -> u64
    ensures { done result list.new ≡ answered ranged (reflectance_range n1_low n1_high n2_low n2_high) list.old }
{
    let reply = reflectance_range::reflectance_range(n1_low, n1_high, n2_low, n2_high);
    match reply {
        Ok(r) => c_call::put_both(2, r.low, r.high, list),
        Err(r) => c_call::packed(r),
    }
}
