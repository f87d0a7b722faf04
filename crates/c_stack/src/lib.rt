// dihkelu_stack: the layers of a stack by their numbers, in a list that was lent.
#![tactic(auto)]

ghost use Rattle.std.specs.Prelude.{◌≡◌, ◌++◌, map, ◌*◌, ◌≤◌, length, take, drop};
ghost use Rattle.c_call.specs.Call.{done, written, answered};
ghost use Rattle.thin_film_shorthand.specs.Stack.{layer, stack};
ghost use Rattle.c_stack.specs.Stack.{flat, stacked};

use refusal::Refusal;
use thin_film_grammar::Film;

// The layers of the first films at the front of a list that has room for them.
fn place(
    films: [Film; 64],
    count: usize,
    n_h: f64,
    n_l: f64,
    n_m: f64,
    design_wavelength_nm: f64,
    list: &mut [f64],
)
    requires { (count ≤ 64) × ((count ≤ length films) × (3 * count ≤ length list.old)) }
    ensures { list.new ≡ flat (take count (map (layer n_h n_l n_m design_wavelength_nm) films)) ++ drop (3 * count) list.old }
{
    for i in 0..count {
        let layer = thin_film_shorthand::layer(films[i], n_h, n_l, n_m, design_wavelength_nm);
        list[3 * i] = layer.n;
        list[3 * i + 1] = layer.k;
        list[3 * i + 2] = layer.thickness_nm;
    }
}

// The layers of the first films by their numbers, and how many numbers they are.
fn put(
    films: [Film; 64],
    count: usize,
    n_h: f64,
    n_l: f64,
    n_m: f64,
    design_wavelength_nm: f64,
    list: &mut [f64],
) -> u64
    requires { (count ≤ 64) × (count ≤ length films) }
    ensures { done result list.new ≡ written (stacked (take count (map (layer n_h n_l n_m design_wavelength_nm) films))) list.old }
{
    let numbers = 3 * count;
    if list.len() < numbers {
        return 0x8_0000_0000;
    }
    place(films, count, n_h, n_l, n_m, design_wavelength_nm, list);
    numbers as u64
}

// The layers that a text stands for: n, k, thickness of one after the other at the front of a list. Returns
// the count of these numbers, or a refusal: 1, 9, 10, then 8 for a list that is too short.
pub fn stack(
    text: &[u8],
    n_h: f64,
    n_l: f64,
    n_m: f64,
    design_wavelength_nm: f64,
    list: &mut [f64],
) -> u64
    ensures { done result list.new ≡ answered stacked (stack text.now n_h n_l n_m design_wavelength_nm) list.old }
{
    if !thin_film_shorthand::valid(n_h, n_l, n_m, design_wavelength_nm) {
        return c_call::packed(Refusal::InvalidParameter);
    }
    match thin_film_reader::read(text) {
        Ok(reading) => {
            let films = reading.films;
            put(
                films,
                reading.count,
                n_h,
                n_l,
                n_m,
                design_wavelength_nm,
                list,
            )
        }
        Err(r) => c_call::packed(r),
    }
}
