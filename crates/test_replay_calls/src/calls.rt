// The functions 208 to 228, the calls that are single functions. Each gives what a call returns and all of the list that it was
// lent, in so many words; none where it is not one of these or its list is too long to lend.

// Lends the first n numbers of a list to a call: what the call returned, and those numbers. The words behind them do not count.
fn lent<F: FnOnce(&mut [f64]) -> u64>(out: &mut [u64; 256], n: usize, call: F) -> usize
    requires { F.IsAlwaysCallable call }
{
    let mut list = [-7.25f64; 200];
    if n > 200 {
        return 0;
    }
    out[0] = call(&mut list[..n]);
    test_records::write(out, 1, &list);
    n + 1
}

// Eighteen numbers, the first of which is at a word of the record.
fn numbers_at(a: &[u8], from: u32) -> [f64; 18] {
    let mut numbers = [0.0f64; 18];
    for (i, number) in numbers.iter_mut().enumerate() {
        *number = test_records::float_at(a, from as usize + i);
    }
    numbers
}

// A call of three numbers.
fn of_three(f: usize, x: f64, y: f64, z: f64, list: &mut [f64]) -> u64 {
    match f {
        208 => dihkelu::dihkelu_fresnel_dielectric(x, y, z, list),
        209 => dihkelu::dihkelu_fresnel_unpolarized(x, y, z, list),
        210 => dihkelu::dihkelu_schlick_approx(x, y, z, list),
        211 => dihkelu::dihkelu_surface_fresnel_jones(x, y, z, list),
        212 => dihkelu::dihkelu_quarter_wave_ar(x, y, z, list),
        _ => dihkelu::dihkelu_retarder(x, y, list),
    }
}

// A plate.
fn of_angle(f: usize, angle: f64, list: &mut [f64]) -> u64 {
    match f {
        223 => dihkelu::dihkelu_linear_polarizer(angle, list),
        225 => dihkelu::dihkelu_quarter_wave_plate(angle, list),
        _ => dihkelu::dihkelu_half_wave_plate(angle, list),
    }
}

// A call of one list.
fn of_list(f: usize, numbers: &[f64], list: &mut [f64]) -> u64 {
    match f {
        215 => dihkelu::dihkelu_to_stokes(numbers, list),
        216 => dihkelu::dihkelu_jones_normalize(numbers, list),
        217 => dihkelu::dihkelu_jones_intensity(numbers, list),
        218 => dihkelu::dihkelu_stokes_figures(numbers, list),
        _ => dihkelu::dihkelu_diattenuator(numbers, list),
    }
}

// A call of two lists.
fn of_lists(f: usize, first: &[f64], second: &[f64], list: &mut [f64]) -> u64 {
    match f {
        219 => dihkelu::dihkelu_jones_apply(first, second, list),
        220 => dihkelu::dihkelu_jones_mul(first, second, list),
        _ => dihkelu::dihkelu_mueller_apply(first, second, list),
    }
}

fn three_call(f: usize, n: usize, a: &[u8], out: &mut [u64; 256]) -> usize {
    let x = test_records::float_at(a, 1);
    let y = test_records::float_at(a, 2);
    let z = test_records::float_at(a, 3);
    lent(out, n, |list| of_three(f, x, y, z, list))
}

fn angle_call(f: usize, n: usize, a: &[u8], out: &mut [u64; 256]) -> usize {
    let angle = test_records::float_at(a, 1);
    lent(out, n, |list| of_angle(f, angle, list))
}

fn list_call(f: usize, n: usize, a: &[u8], out: &mut [u64; 256]) -> usize {
    let count = test_records::small_at(a, 1) as usize;
    if count > 18 {
        return 0;
    }
    let numbers = &numbers_at(a, 2)[..count];
    lent(out, n, |list| of_list(f, numbers, list))
}

fn lists_call(f: usize, n: usize, a: &[u8], out: &mut [u64; 256]) -> usize {
    let first = test_records::small_at(a, 1);
    if first > 18 {
        return 0;
    }
    let second = test_records::small_at(a, (first + 2) as usize) as usize;
    if second > 18 {
        return 0;
    }
    let matrix = &numbers_at(a, 2)[..first as usize];
    let numbers = &numbers_at(a, first + 3)[..second];
    lent(out, n, |list| of_lists(f, matrix, numbers, list))
}

fn bragg_mirror_call(n: usize, a: &[u8], out: &mut [u64; 256]) -> usize {
    let n_high = test_records::float_at(a, 1);
    let n_low = test_records::float_at(a, 2);
    let pairs = test_records::small_at(a, 3);
    let design_wavelength_nm = test_records::float_at(a, 4);
    lent(out, n, |list| {
        dihkelu::dihkelu_bragg_mirror(n_high, n_low, pairs, design_wavelength_nm, list)
    })
}

fn name_call(name: &[u8], out: &mut [u64; 256]) -> usize {
    out[0] = dihkelu::dihkelu_coating_from_name(name);
    1
}

// What the call returned, and each byte of the output as a word.
fn coating_name_call(n: usize, code: u32, out: &mut [u64; 256]) -> usize {
    let mut output = [0xa5u8; 200];
    if n > 200 {
        return 0;
    }
    out[0] = dihkelu::dihkelu_coating_name(code, &mut output[..n]);
    for (i, byte) in output[..n].iter().enumerate() {
        out[i + 1] = *byte as u64;
    }
    n + 1
}

fn trim_call(name: &[u8], out: &mut [u64; 256]) -> usize {
    let mut place = 0x5a5au64;
    let mut length = 0xa5a5u64;
    out[0] = dihkelu::dihkelu_trim(name, &mut place, &mut length);
    out[1] = place;
    out[2] = length;
    3
}

pub fn call(f: usize, a: &[u8], out: &mut [u64; 256]) -> usize {
    let n = test_records::small_at(a, 0) as usize;
    match f {
        208..=212 | 224 => three_call(f, n, a, out),
        213 => bragg_mirror_call(n, a, out),
        214 => name_call(test_records::bytes_at(a, 0), out),
        215..=218 | 222 => list_call(f, n, a, out),
        219..=221 => lists_call(f, n, a, out),
        223 | 225 | 226 => angle_call(f, n, a, out),
        227 => coating_name_call(n, test_records::small_at(a, 1), out),
        228 => trim_call(test_records::bytes_at(a, 0), out),
        _ => 0,
    }
}
