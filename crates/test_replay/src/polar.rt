// The functions 80 to 139: of fresnel and polarization.
use super::numbers::{one, two};
use polarization_mueller::{JonesMatrix, MuellerMatrix};
use polarization_stokes::{JonesVector, StokesVector};
use test_records::Four;
use thin_film_complex::Complex;

fn four(out: &mut [u64; 256], a: f64, b: f64, c: f64, d: f64) -> usize {
    let w = [a, b, c, d];
    test_records::write(out, 0, &w);
    4
}

fn stokes_out(out: &mut [u64; 256], s: StokesVector) -> usize {
    four(out, s.s0, s.s1, s.s2, s.s3)
}

fn vector_out(out: &mut [u64; 256], v: JonesVector) -> usize {
    let x = v.ex;
    let y = v.ey;
    four(out, x.re, x.im, y.re, y.im)
}

fn mueller_out(out: &mut [u64; 256], x: MuellerMatrix) -> usize {
    test_records::write_mueller(out, 0, x);
    16
}

fn vector_at(a: &[u8], i: usize) -> JonesVector {
    let x = test_records::four_at(a, i);
    JonesVector::new(Complex::new(x.a, x.b), Complex::new(x.c, x.d))
}

fn stokes_at(a: &[u8], i: usize) -> StokesVector {
    let x = test_records::four_at(a, i);
    StokesVector::new(x.a, x.b, x.c, x.d)
}

fn mueller_at(a: &[u8]) -> MuellerMatrix {
    let mut m = [0.0f64; 16];
    for (i, x) in m.iter_mut().enumerate() {
        *x = test_records::float_at(a, i);
    }
    MuellerMatrix { m }
}

// 80 to 82.
fn fresnel_call(f: usize, x: Four, out: &mut [u64; 256]) -> usize {
    match f {
        80 => {
            let r = fresnel::fresnel_dielectric(x.a, x.b, x.c);
            two(out, r.rs, r.rp)
        }
        81 => {
            let r = fresnel::fresnel_unpolarized(x.a, x.b, x.c);
            two(out, r.r_total, r.t_total)
        }
        _ => one(out, fresnel::schlick_approx(x.a, x.b, x.c)),
    }
}

// 100 to 107, but for 106.
fn vector_value(f: usize, v: JonesVector) -> JonesVector {
    match f {
        100 => v,
        101 => JonesVector::linear_horizontal(),
        102 => JonesVector::linear_vertical(),
        103 => JonesVector::linear_45(),
        104 => JonesVector::circular_right(),
        105 => JonesVector::circular_left(),
        _ => v.normalize(),
    }
}

// 112 to 116.
fn stokes_value(f: usize, s: StokesVector) -> f64 {
    match f {
        112 => s.degree_of_polarization(),
        113 => s.degree_of_linear_polarization(),
        114 => s.degree_of_circular_polarization(),
        115 => s.orientation_angle_rad(),
        _ => s.ellipticity_angle_rad(),
    }
}

// 80 to 119: how many words the function gave; 0 where it is not one of these.
pub fn vector_call(f: usize, a: &[u8], out: &mut [u64; 256]) -> usize {
    let v = vector_at(a, 0);
    let s = stokes_at(a, 0);
    match f {
        80..=82 => fresnel_call(f, test_records::four_at(a, 0), out),
        106 => one(out, v.intensity()),
        100..=107 => vector_out(out, vector_value(f, v)),
        108 => stokes_out(out, v.to_stokes()),
        110 => stokes_out(out, s),
        111 => stokes_out(out, StokesVector::unpolarized(s.s0)),
        112..=116 => one(out, stokes_value(f, s)),
        _ => 0,
    }
}

// 120 to 127, but for 126.
fn jones_value(f: usize, x: Four, left: JonesMatrix, right: JonesMatrix) -> JonesMatrix {
    match f {
        120 => JonesMatrix::identity(),
        121 => JonesMatrix::linear_polarizer(x.a),
        122 => JonesMatrix::retarder(x.a, x.b),
        123 => JonesMatrix::quarter_wave_plate(x.a),
        124 => JonesMatrix::half_wave_plate(x.a),
        125 => JonesMatrix::diattenuator(Complex::new(x.a, x.b), Complex::new(x.c, x.d)),
        _ => left.mul(right),
    }
}

fn coating_jones(a: &[u8], out: &mut [u64; 256]) -> usize {
    let r = polarization::surface_coating_jones(test_records::response_at(a));
    test_records::write_jones(out, 0, r.reflection);
    test_records::write_jones(out, 8, r.transmission);
    16
}

fn fresnel_jones(x: Four, out: &mut [u64; 256]) -> usize {
    match polarization::surface_fresnel_jones(x.a, x.b, x.c) {
        Ok(matrices) => {
            out[0] = 0;
            test_records::write_jones(out, 1, matrices.reflection);
            test_records::write_jones(out, 9, matrices.transmission);
            17
        }
        Err(r) => test_records::write_refusal(out, r),
    }
}

// 120 to 139.
pub fn matrix_call(f: usize, a: &[u8], out: &mut [u64; 256]) -> usize {
    let left = test_records::jones_at(a, 0);
    match f {
        126 => vector_out(out, left.apply(vector_at(a, 8))),
        120..=127 => {
            test_records::write_jones(
                out,
                0,
                jones_value(
                    f,
                    test_records::four_at(a, 0),
                    left,
                    test_records::jones_at(a, 8),
                ),
            );
            8
        }
        128 => mueller_out(out, left.to_mueller()),
        130 => mueller_out(out, MuellerMatrix::identity()),
        131 => stokes_out(out, mueller_at(a).apply(stokes_at(a, 16))),
        135 => coating_jones(a, out),
        136 => fresnel_jones(test_records::four_at(a, 0), out),
        _ => 0,
    }
}
