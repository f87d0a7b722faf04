// The functions 1 to 59: of ieee, sqrt, elementary and complex.
use test_records::Four;
use thin_film_complex::Complex;

pub fn one(out: &mut [u64; 256], x: f64) -> usize {
    let w = [x];
    test_records::write(out, 0, &w);
    1
}

pub fn two(out: &mut [u64; 256], x: f64, y: f64) -> usize {
    let w = [x, y];
    test_records::write(out, 0, &w);
    2
}

fn flag(out: &mut [u64; 256], b: bool) -> usize {
    if b {
        out[0] = 1;
    } else {
        out[0] = 0;
    }
    1
}

// 1 to 9, but for 4 and 7.
fn ieee_value(f: usize, x: Four) -> f64 {
    match f {
        1 => ieee::abs(x.a),
        2 => ieee::max(x.a, x.b),
        3 => ieee::clamp(x.a, x.b, x.c),
        5 => ieee::powi2(x.a),
        6 => ieee::powi5(x.a),
        8 => ieee_rem::rem(x.a, x.b),
        _ => math_sqrt::sqrt(x.a),
    }
}

// 20 to 25.
fn elementary_value(f: usize, x: f64, y: f64) -> f64 {
    match f {
        20 => math_trig::sin(x),
        21 => math_trig::cos(x),
        22 => math_exp::exp(x),
        23 => math_atan::atan(x),
        24 => math_atan::asin(x),
        _ => math_atan::atan2(x, y),
    }
}

// 44 to 46.
fn complex_size(f: usize, z: Complex) -> f64 {
    match f {
        44 => z.norm_sq(),
        45 => z.norm(),
        _ => z.arg(),
    }
}

// The others from 40 to 52.
fn complex_value(f: usize, z: Complex, w: Complex) -> Complex {
    match f {
        40 => z,
        41 => Complex::real(z.re),
        42 => Complex::zero(),
        43 => z.scale(w.re),
        47 => z.exp(),
        48 => z.sqrt(),
        49 => z.add(w),
        50 => z.sub(w),
        51 => z.mul(w),
        _ => z.div(w),
    }
}

// How many words the function gave; 0 where it is not one of these.
pub fn call(f: usize, a: &[u8], out: &mut [u64; 256]) -> usize {
    let x = test_records::four_at(a, 0);
    let z = Complex::new(x.a, x.b);
    match f {
        4 => flag(out, ieee::is_finite(x.a)),
        7 => one(
            out,
            ieee::from_words(test_records::small_at(a, 0), test_records::small_at(a, 1)),
        ),
        1..=9 => one(out, ieee_value(f, x)),
        20..=25 => one(out, elementary_value(f, x.a, x.b)),
        44..=46 => one(out, complex_size(f, z)),
        40..=52 => {
            let w = complex_value(f, z, Complex::new(x.c, x.d));
            two(out, w.re, w.im)
        }
        _ => 0,
    }
}
