// Jones and Mueller matrices, as polarization.rs has them: flat arrays, one row after the other.
#![tactic(auto)]

ghost use Rattle.std.specs.Prelude.{◌≡◌};
ghost use Rattle.polarization_mueller.specs.Jones.{identity, linear_polarizer, retarding, retarder, quarter_wave_plate, half_wave_plate, diattenuator, apply, mul};
ghost use Rattle.polarization_mueller.specs.Mueller as M;

use polarization_stokes::{JonesVector, StokesVector};
use thin_film_complex::Complex;

// ---- Jones matrices

// The entry [i][j] stands at 2 i + j.
#[derive(Clone, Copy)]
pub struct JonesMatrix {
    pub m: [Complex; 4],
}

// A retarder, of e^(i delta/2) and e^(-i delta/2) and the fast axis's cosine and sine.
fn retarding(exp_pos: Complex, exp_neg: Complex, c: f64, s: f64) -> JonesMatrix
    ensures { result ≡ retarding exp_pos exp_neg c s }
{
    let c2 = c * c;
    let s2 = s * s;
    let cs = c * s;
    let m00 = exp_pos.scale(c2).add(exp_neg.scale(s2));
    let m01 = exp_pos.sub(exp_neg).scale(cs);
    let m11 = exp_pos.scale(s2).add(exp_neg.scale(c2));
    JonesMatrix {
        m: [m00, m01, m01, m11],
    }
}

// The response to a state, as a Stokes vector.
fn response(j: JonesMatrix, v: JonesVector) -> StokesVector
    ensures { result ≡ M.response j v }
{
    j.apply(v).to_stokes()
}

// A Mueller matrix by its columns, from the responses to four states.
fn columns(h: StokesVector, v: StokesVector, p45: StokesVector, rcp: StokesVector) -> MuellerMatrix
    ensures { result ≡ M.columns h v p45 rcp }
{
    let m00 = 0.5 * (h.s0 + v.s0);
    let m10 = 0.5 * (h.s1 + v.s1);
    let m20 = 0.5 * (h.s2 + v.s2);
    let m30 = 0.5 * (h.s3 + v.s3);
    let m01 = 0.5 * (h.s0 - v.s0);
    let m11 = 0.5 * (h.s1 - v.s1);
    let m21 = 0.5 * (h.s2 - v.s2);
    let m31 = 0.5 * (h.s3 - v.s3);
    let m02 = p45.s0 - m00;
    let m12 = p45.s1 - m10;
    let m22 = p45.s2 - m20;
    let m32 = p45.s3 - m30;
    let m03 = rcp.s0 - m00;
    let m13 = rcp.s1 - m10;
    let m23 = rcp.s2 - m20;
    let m33 = rcp.s3 - m30;
    MuellerMatrix {
        m: [
            m00, m01, m02, m03, m10, m11, m12, m13, m20, m21, m22, m23, m30, m31, m32, m33,
        ],
    }
}

impl JonesMatrix {
    pub fn identity() -> Self
        ensures { result ≡ identity }
    {
        let one = Complex::real(1.0);
        let zero = Complex::zero();
        Self {
            m: [one, zero, zero, one],
        }
    }

    // At an angle to the x-axis.
    pub fn linear_polarizer(angle_rad: f64) -> Self
        ensures { result ≡ linear_polarizer angle_rad }
    {
        let c = math_trig::cos(angle_rad);
        let s = math_trig::sin(angle_rad);
        let cc = Complex::real(c * c);
        let cs = Complex::real(c * s);
        let ss = Complex::real(s * s);
        Self {
            m: [cc, cs, cs, ss],
        }
    }

    pub fn retarder(retardance_rad: f64, fast_axis_rad: f64) -> Self
        ensures { result ≡ retarder retardance_rad fast_axis_rad }
    {
        let half_delta = math_trig::sin_cos(retardance_rad * 0.5);
        let exp_pos = Complex::new(half_delta.cos, half_delta.sin);
        let exp_neg = Complex::new(half_delta.cos, -half_delta.sin);
        let axis = math_trig::sin_cos(fast_axis_rad);
        retarding(exp_pos, exp_neg, axis.cos, axis.sin)
    }

    pub fn quarter_wave_plate(fast_axis_rad: f64) -> Self
        ensures { result ≡ quarter_wave_plate fast_axis_rad }
    {
        Self::retarder(1.5707963267948966, fast_axis_rad)
    }

    pub fn half_wave_plate(fast_axis_rad: f64) -> Self
        ensures { result ≡ half_wave_plate fast_axis_rad }
    {
        Self::retarder(3.141592653589793, fast_axis_rad)
    }

    // Diagonal: the amplitudes of the two polarizations.
    pub fn diattenuator(tx: Complex, ty: Complex) -> Self
        ensures { result ≡ diattenuator tx ty }
    {
        let zero = Complex::zero();
        Self {
            m: [tx, zero, zero, ty],
        }
    }

    // E' = J E
    pub fn apply(self, v: JonesVector) -> JonesVector
        ensures { result ≡ apply self v }
    {
        let m = self.m;
        let x = v.ex;
        let y = v.ey;
        JonesVector {
            ex: thin_film_matrix::dot(m[0], x, m[1], y),
            ey: thin_film_matrix::dot(m[2], x, m[3], y),
        }
    }

    pub fn mul(self, rhs: Self) -> Self
        ensures { result ≡ mul self rhs }
    {
        let a = self.m;
        let b = rhs.m;
        Self {
            m: [
                thin_film_matrix::dot(a[0], b[0], a[1], b[2]),
                thin_film_matrix::dot(a[0], b[1], a[1], b[3]),
                thin_film_matrix::dot(a[2], b[0], a[3], b[2]),
                thin_film_matrix::dot(a[2], b[1], a[3], b[3]),
            ],
        }
    }

    // Its columns come from four states; the fourth is the response to circular_right.
    pub fn to_mueller(self) -> MuellerMatrix
        ensures { result ≡ M.to_mueller self }
    {
        let h = response(self, JonesVector::linear_horizontal());
        let v = response(self, JonesVector::linear_vertical());
        let p45 = response(self, JonesVector::linear_45());
        let rcp = response(self, JonesVector::circular_right());
        columns(h, v, p45, rcp)
    }
}

// ---- Mueller matrices

// The entry [i][j] stands at 4 i + j.
#[derive(Clone, Copy)]
pub struct MuellerMatrix {
    pub m: [f64; 16],
}

// A row times a Stokes vector, added onto +0.
fn row_times(a: f64, b: f64, c: f64, d: f64, s: StokesVector) -> f64
    ensures { result ≡ M.row_times a b c d s }
{
    0.0 + a * s.s0 + b * s.s1 + c * s.s2 + d * s.s3
}

impl MuellerMatrix {
    pub fn identity() -> Self
        ensures { result ≡ M.identity }
    {
        Self {
            m: [
                1.0, 0.0, 0.0, 0.0, 0.0, 1.0, 0.0, 0.0, 0.0, 0.0, 1.0, 0.0, 0.0, 0.0, 0.0, 1.0,
            ],
        }
    }

    // S' = M S
    pub fn apply(self, s: StokesVector) -> StokesVector
        ensures { result ≡ M.apply_mueller self s }
    {
        let m = self.m;
        StokesVector {
            s0: row_times(m[0], m[1], m[2], m[3], s),
            s1: row_times(m[4], m[5], m[6], m[7], s),
            s2: row_times(m[8], m[9], m[10], m[11], s),
            s3: row_times(m[12], m[13], m[14], m[15], s),
        }
    }
}
