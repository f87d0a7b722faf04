// The layers of quarter_wave_ar and bragg_mirror for callers in C, in a list that was lent.
#![tactic(auto)]

ghost use Rattle.std.specs.Prelude.{◌≡◌, ◌++◌, ◌+◌, ◌*◌, ◌≤◌, length, drop};
ghost use Rattle.thin_film_presets.specs.Layers.{bragg_layers};
ghost use Rattle.thin_film_coating.specs.Coating.{quarter_wave_layers};
ghost use Rattle.c_call.specs.Call.{done, written, answered};
ghost use Rattle.c_stack.specs.Stack.{flat, stacked};
ghost use Rattle.c_presets.specs.Presets.{mirror};

use refusal::Refusal;
use thin_film_coating::Coating;

// One quarter-wave layer of index sqrt(n_ambient * n_substrate): n, k, thickness. Returns 3, or 8 for a list that is
// too short.
pub fn quarter_wave_ar(
    n_ambient: f64,
    n_substrate: f64,
    design_wavelength_nm: f64,
    list: &mut [f64],
) -> u64
    ensures { done result list.new ≡ written (stacked (quarter_wave_layers n_ambient n_substrate design_wavelength_nm)) list.old }
{
    let built = Coating::quarter_wave_ar(n_ambient, n_substrate, design_wavelength_nm);
    let layers = built.layers;
    let items = layers.items;
    let layer = items[0];
    let numbers = [layer.n, layer.k, layer.thickness_nm];
    c_call::put(3, &numbers, list)
}

// The layers of (H L)^pairs H at the front of a list that has room for them.
fn place(n_high: f64, n_low: f64, pairs: usize, design_wavelength_nm: f64, list: &mut [f64])
    requires { (pairs ≤ 31) × (3 * (pairs * 2 + 1) ≤ length list.old) }
    ensures { list.new ≡ flat (bragg_layers n_high n_low pairs design_wavelength_nm) ++ drop (3 * (pairs * 2 + 1)) list.old }
{
    for i in 0..pairs * 2 + 1 {
        let layer = thin_film_presets::bragg(n_high, n_low, design_wavelength_nm, i);
        list[3 * i] = layer.n;
        list[3 * i + 1] = layer.k;
        list[3 * i + 2] = layer.thickness_nm;
    }
}

// (H L)^pairs H, a quarter wave each: n, k, thickness of one layer after the other. Returns the count of these
// numbers, or a refusal: 3 for more than 31 pairs, then 8.
pub fn bragg_mirror(
    n_high: f64,
    n_low: f64,
    pairs: u32,
    design_wavelength_nm: f64,
    list: &mut [f64],
) -> u64
    ensures { done result list.new ≡ answered stacked (mirror n_high n_low pairs design_wavelength_nm) list.old }
{
    if pairs > 31 {
        return c_call::packed(Refusal::TooManyLayers);
    }
    let count = pairs as usize;
    let numbers = 3 * (count * 2 + 1);
    if list.len() < numbers {
        return 0x8_0000_0000;
    }
    place(n_high, n_low, count, design_wavelength_nm, list);
    numbers as u64
}
