// The functions 180 to 198 and from 205 on, the exports, and 155, which is one of them too. Each gives what a call returns and all of the list, of the state or of the output that it
// was lent, in so many words; none where it is not one of these or its list is too long to lend.

// Lends the first n numbers of a list to a call: what the call returned, and those numbers. The words behind them do not count.
fn lent<F: FnOnce(&mut [f64]) -> u64>(out: &mut [u64; 256], n: usize, call: F) -> usize
    requires { F.IsAlwaysCallable call }
{
    let mut list = [-7.25f64; 200];
    if n > 200 {
        return 0;
    }
    out[0] = call(&mut list[..n]);
    test_records::write(out, 1, &list);
    n + 1
}

fn gate_call(src: &[u8], out: &mut [u64; 256]) -> usize {
    out[0] = dihkelu::dihkelu_gate(src);
    1
}

// What a call returned, and the state as it left it.
fn state_out(
    out: &mut [u64; 256],
    number: u64,
    done: u32,
    s: f64,
    p: f64,
    wavelength_nm: f64,
) -> usize {
    let floats = [s, p, wavelength_nm];
    out[0] = number;
    out[1] = done as u64;
    test_records::write(out, 2, &floats);
    5
}

fn start_call(src: &[u8], out: &mut [u64; 256]) -> usize {
    let mut done: u32 = 7;
    let mut s = -7.25f64;
    let mut p = -7.25f64;
    let mut wavelength_nm = -7.25f64;
    let number = dihkelu::dihkelu_start(src, &mut done, &mut s, &mut p, &mut wavelength_nm);
    state_out(out, number, done, s, p, wavelength_nm)
}

fn step_call(a: &[u8], out: &mut [u64; 256]) -> usize {
    let mut done = test_records::small_at(a, 0);
    let mut s = test_records::float_at(a, 1);
    let mut p = test_records::float_at(a, 2);
    let mut wavelength_nm = test_records::float_at(a, 3);
    let src = test_records::bytes_at(a, 4);
    let number = dihkelu::dihkelu_step(src, &mut done, &mut s, &mut p, &mut wavelength_nm);
    state_out(out, number, done, s, p, wavelength_nm)
}

fn retune_call(a: &[u8], out: &mut [u64; 256]) -> usize {
    let done = test_records::small_at(a, 1);
    let s = test_records::float_at(a, 2);
    let p = test_records::float_at(a, 3);
    let mut wavelength_nm = test_records::float_at(a, 4);
    let src = test_records::bytes_at(a, 5);
    let new = test_records::float_at(a, 0);
    let number = dihkelu::dihkelu_retune(src, done, &mut wavelength_nm, new);
    state_out(out, number, done, s, p, wavelength_nm)
}

fn run_call(n: usize, src: &[u8], out: &mut [u64; 256]) -> usize {
    lent(out, n, |list| dihkelu::dihkelu_run(src, list))
}

fn answers_call(n: usize, surface: u32, src: &[u8], out: &mut [u64; 256]) -> usize {
    lent(out, n, |list| dihkelu::dihkelu_answers(src, surface, list))
}

fn answers_at_call(
    n: usize,
    wavelength_nm: f64,
    surface: u32,
    src: &[u8],
    out: &mut [u64; 256],
) -> usize {
    lent(out, n, |list| {
        dihkelu::dihkelu_answers_at(src, surface, wavelength_nm, list)
    })
}

// A sum turned by one bit, and a byte added without carry.
fn turned(sum: u64, byte: u8) -> u64 {
    (sum << 1 | sum >> 63) ^ byte as u64
}

// The first n bytes of an output as one word.
fn folded(output: &[u8; 40000], n: usize) -> u64 {
    output
        .iter()
        .take(n)
        .fold(0, |sum, byte| turned(sum, *byte))
}

fn edition_1_call(n: usize, src: &[u8], out: &mut [u64; 256]) -> usize {
    let mut output = [0xa5u8; 40000];
    if n > 40000 {
        return 0;
    }
    out[0] = dihkelu::dihkelu_edition_1(src, &mut output[..n]);
    out[1] = folded(&output, n);
    2
}

// So many numbers, the first of which is at a word of the record.
fn floats_at(a: &[u8], from: u32) -> [f64; 200] {
    let mut floats = [0.0f64; 200];
    for (i, float) in floats.iter_mut().enumerate() {
        *float = test_records::float_at(a, from as usize + i);
    }
    floats
}

fn evaluate_call(n: usize, a: &[u8], out: &mut [u64; 256]) -> usize {
    let count = test_records::small_at(a, 7) as usize;
    if count > 200 {
        return 0;
    }
    let layers = &floats_at(a, 8)[..count];
    lent(out, n, |list| {
        dihkelu::dihkelu_evaluate(
            test_records::small_at(a, 1),
            test_records::float_at(a, 2),
            test_records::float_at(a, 3),
            test_records::float_at(a, 4),
            test_records::float_at(a, 5),
            test_records::float_at(a, 6),
            layers,
            list,
        )
    })
}

fn stack_call(n: usize, a: &[u8], out: &mut [u64; 256]) -> usize {
    lent(out, n, |list| {
        dihkelu::dihkelu_stack(
            test_records::bytes_at(a, 5),
            test_records::float_at(a, 1),
            test_records::float_at(a, 2),
            test_records::float_at(a, 3),
            test_records::float_at(a, 4),
            list,
        )
    })
}

// Ten numbers, the first of which is the third of the record.
fn numbers_at(a: &[u8]) -> [f64; 10] {
    [
        test_records::float_at(a, 2),
        test_records::float_at(a, 3),
        test_records::float_at(a, 4),
        test_records::float_at(a, 5),
        test_records::float_at(a, 6),
        test_records::float_at(a, 7),
        test_records::float_at(a, 8),
        test_records::float_at(a, 9),
        test_records::float_at(a, 10),
        test_records::float_at(a, 11),
    ]
}

fn to_mueller_call(n: usize, count: usize, a: &[u8], out: &mut [u64; 256]) -> usize {
    if count > 10 {
        return 0;
    }
    let numbers = &numbers_at(a)[..count];
    lent(out, n, |list| dihkelu::dihkelu_to_mueller(numbers, list))
}

fn born_wolf_call(n: usize, count: usize, a: &[u8], out: &mut [u64; 256]) -> usize {
    if count > 10 {
        return 0;
    }
    let numbers = &numbers_at(a)[..count];
    lent(
        out,
        n,
        |list| dihkelu::dihkelu_mueller_born_wolf(numbers, list),
    )
}

fn range_call(n: usize, a: &[u8], out: &mut [u64; 256]) -> usize {
    lent(out, n, |list| {
        dihkelu::dihkelu_reflectance_range(
            test_records::float_at(a, 1),
            test_records::float_at(a, 2),
            test_records::float_at(a, 3),
            test_records::float_at(a, 4),
            list,
        )
    })
}

fn quarter_waves_call(a: &[u8], out: &mut [u64; 256]) -> usize {
    let mut remainder = -7.25f64;
    let number = dihkelu::dihkelu_quarter_waves(
        test_records::float_at(a, 0),
        test_records::float_at(a, 1),
        test_records::float_at(a, 2),
        &mut remainder,
    );
    out[0] = number;
    out[1] = test_records::bits(remainder);
    2
}

// So many wavelengths, the first of which is the fourth word of the record.
fn wavelengths_at(a: &[u8]) -> [f64; 66] {
    let mut wavelengths = [0.0f64; 66];
    for (i, wavelength) in wavelengths.iter_mut().enumerate() {
        *wavelength = test_records::float_at(a, i + 3);
    }
    wavelengths
}

// So many weights, the first of which is at a word of the record.
fn weights_at(a: &[u8], from: u32) -> [u32; 66] {
    let mut weights = [0u32; 66];
    for (i, weight) in weights.iter_mut().enumerate() {
        *weight = test_records::small_at(a, from as usize + i);
    }
    weights
}

fn band_call(n: usize, lines: u32, a: &[u8], out: &mut [u64; 256]) -> usize {
    let count = test_records::small_at(a, 2);
    if lines > 66 || count > 66 {
        return 0;
    }
    let wavelengths = &wavelengths_at(a)[..lines as usize];
    let weights = &weights_at(a, lines + 3)[..count as usize];
    let src = test_records::bytes_at(a, (lines + count + 3) as usize);
    lent(out, n, |list| {
        dihkelu::dihkelu_band(src, wavelengths, weights, list)
    })
}

fn evaluate_list_call(n: usize, a: &[u8], out: &mut [u64; 256]) -> usize {
    let angles = test_records::small_at(a, 5);
    let wavelengths = test_records::small_at(a, 6);
    if angles > 200 || wavelengths > 200 {
        return 0;
    }
    let count = test_records::small_at(a, (angles + wavelengths + 7) as usize) as usize;
    if count > 200 {
        return 0;
    }
    let angles_rad = &floats_at(a, 7)[..angles as usize];
    let wavelengths_nm = &floats_at(a, angles + 7)[..wavelengths as usize];
    let layers = &floats_at(a, angles + wavelengths + 8)[..count];
    lent(out, n, |list| {
        dihkelu::dihkelu_evaluate_list(
            test_records::small_at(a, 1),
            test_records::float_at(a, 2),
            test_records::float_at(a, 3),
            test_records::float_at(a, 4),
            angles_rad,
            wavelengths_nm,
            layers,
            list,
        )
    })
}

fn invalid_argument_call(a: &[u8], out: &mut [u64; 256]) -> usize {
    out[0] = dihkelu::dihkelu_invalid_argument(
        test_records::float_at(a, 0),
        test_records::float_at(a, 1),
        test_records::float_at(a, 2),
        test_records::float_at(a, 3),
    );
    1
}

fn float_out(out: &mut [u64; 256], x: f64) -> usize {
    out[0] = test_records::bits(x);
    1
}

pub fn call(f: usize, a: &[u8], out: &mut [u64; 256]) -> usize {
    let n = test_records::small_at(a, 0) as usize;
    let done = test_records::small_at(a, 1);
    let x = test_records::float_at(a, 0);
    match f {
        155 => quarter_waves_call(a, out),
        180 => gate_call(test_records::bytes_at(a, 0), out),
        181 => start_call(test_records::bytes_at(a, 0), out),
        182 => step_call(a, out),
        183 => run_call(n, test_records::bytes_at(a, 1), out),
        184 => answers_call(n, done, test_records::bytes_at(a, 2), out),
        185 => evaluate_call(n, a, out),
        186 => stack_call(n, a, out),
        187 => to_mueller_call(n, done as usize, a, out),
        188 => born_wolf_call(n, done as usize, a, out),
        189 => range_call(n, a, out),
        190 => float_out(out, c_scalars::dihkelu_sqrt(x)),
        191 => float_out(out, c_scalars::dihkelu_sin(x)),
        192 => float_out(out, c_scalars::dihkelu_cos(x)),
        193 => float_out(out, c_scalars::dihkelu_exp(x)),
        194 => float_out(out, c_scalars::dihkelu_atan(x)),
        195 => float_out(out, c_scalars::dihkelu_asin(x)),
        196 => float_out(
            out,
            c_scalars::dihkelu_atan2(x, test_records::float_at(a, 1)),
        ),
        197 => retune_call(a, out),
        198 => edition_1_call(n, test_records::bytes_at(a, 1), out),
        205 => band_call(n, done, a, out),
        206 => evaluate_list_call(n, a, out),
        207 => invalid_argument_call(a, out),
        229 => answers_at_call(
            n,
            test_records::float_at(a, 1),
            test_records::small_at(a, 2),
            test_records::bytes_at(a, 3),
            out,
        ),
        _ => 0,
    }
}
