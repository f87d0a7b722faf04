// Jones and Stokes vectors, Jones and Mueller matrices for callers in C: from numbers that were lent to a list that was
// lent. A list of another length than is needed is refused with 1, an output that is too short with 8.
#![tactic(auto)]

ghost use Rattle.std.specs.Prelude.{◌≡◌, length};
ghost use Rattle.polarization_stokes.specs.Jones.{intensity, normalize, to_stokes};
ghost use Rattle.polarization_mueller.specs.Jones.{linear_polarizer, retarder, quarter_wave_plate, half_wave_plate, diattenuator, apply, mul};
ghost use Rattle.polarization_mueller.specs.Mueller.{apply_mueller};
ghost use Rattle.c_call.specs.Call.{done, written, answered};
ghost use Rattle.c_call.specs.Layout.{alone, entries};
ghost use Rattle.c_mueller.specs.Mueller as Matrix;
ghost use Rattle.c_polarization.specs.Numbers.{of, of_two, vector, stokes, mueller, parts, parameters, figures};

use polarization_mueller::{JonesMatrix, MuellerMatrix};
use polarization_stokes::{JonesVector, StokesVector};
use refusal::Refusal;
use thin_film_complex::Complex;

// ---- what was lent

fn vector(numbers: &[f64]) -> JonesVector
    requires { length numbers.now ≡ 4 }
    ensures { result ≡ vector numbers.now }
{
    JonesVector {
        ex: Complex {
            re: numbers[0],
            im: numbers[1],
        },
        ey: Complex {
            re: numbers[2],
            im: numbers[3],
        },
    }
}

fn stokes(numbers: &[f64]) -> StokesVector
    requires { length numbers.now ≡ 4 }
    ensures { result ≡ stokes numbers.now }
{
    StokesVector {
        s0: numbers[0],
        s1: numbers[1],
        s2: numbers[2],
        s3: numbers[3],
    }
}

fn jones(numbers: &[f64]) -> JonesMatrix
    requires { length numbers.now ≡ 8 }
    ensures { result ≡ Matrix.jones numbers.now }
{
    JonesMatrix {
        m: [
            Complex {
                re: numbers[0],
                im: numbers[1],
            },
            Complex {
                re: numbers[2],
                im: numbers[3],
            },
            Complex {
                re: numbers[4],
                im: numbers[5],
            },
            Complex {
                re: numbers[6],
                im: numbers[7],
            },
        ],
    }
}

fn mueller(numbers: &[f64]) -> MuellerMatrix
    requires { length numbers.now ≡ 16 }
    ensures { result ≡ mueller numbers.now }
{
    MuellerMatrix {
        m: [
            numbers[0],
            numbers[1],
            numbers[2],
            numbers[3],
            numbers[4],
            numbers[5],
            numbers[6],
            numbers[7],
            numbers[8],
            numbers[9],
            numbers[10],
            numbers[11],
            numbers[12],
            numbers[13],
            numbers[14],
            numbers[15],
        ],
    }
}

// ---- what is written

fn put_vector(v: JonesVector, list: &mut [f64]) -> u64
    ensures { done result list.new ≡ written (parts v) list.old }
{
    let ex = v.ex;
    let ey = v.ey;
    let numbers = [ex.re, ex.im, ey.re, ey.im];
    c_call::put(4, &numbers, list)
}

fn put_stokes(s: StokesVector, list: &mut [f64]) -> u64
    ensures { done result list.new ≡ written (parameters s) list.old }
{
    let numbers = [s.s0, s.s1, s.s2, s.s3];
    c_call::put(4, &numbers, list)
}

fn put_figures(s: StokesVector, list: &mut [f64]) -> u64
    ensures { done result list.new ≡ written (figures s) list.old }
{
    let whole = s.degree_of_polarization();
    let linear = s.degree_of_linear_polarization();
    let circular = s.degree_of_circular_polarization();
    let orientation = s.orientation_angle_rad();
    let ellipticity = s.ellipticity_angle_rad();
    let numbers = [whole, linear, circular, orientation, ellipticity];
    c_call::put(5, &numbers, list)
}

// A diattenuator, its amplitudes the parts of a vector.
fn diattenuating(v: JonesVector, list: &mut [f64]) -> u64
    ensures { done result list.new ≡ written (entries (diattenuator v.ex v.ey)) list.old }
{
    let tx = v.ex;
    let ty = v.ey;
    c_call::put_jones(JonesMatrix::diattenuator(tx, ty), list)
}

// ---- of a Jones vector: ex, ey, each as re, im

// JonesVector::to_stokes: S0 to S3. Returns 4.
pub fn to_stokes(numbers: &[f64], list: &mut [f64]) -> u64
    ensures { done result list.new ≡ answered parameters (of 4 (λ given. to_stokes (vector given)) numbers.now) list.old }
{
    if numbers.len() != 4 {
        return c_call::packed(Refusal::InvalidParameter);
    }
    put_stokes(vector(numbers).to_stokes(), list)
}

// JonesVector::normalize. Returns 4.
pub fn jones_normalize(numbers: &[f64], list: &mut [f64]) -> u64
    ensures { done result list.new ≡ answered parts (of 4 (λ given. normalize (vector given)) numbers.now) list.old }
{
    if numbers.len() != 4 {
        return c_call::packed(Refusal::InvalidParameter);
    }
    put_vector(vector(numbers).normalize(), list)
}

// JonesVector::intensity. Returns 1.
pub fn jones_intensity(numbers: &[f64], list: &mut [f64]) -> u64
    ensures { done result list.new ≡ answered alone (of 4 (λ given. intensity (vector given)) numbers.now) list.old }
{
    if numbers.len() != 4 {
        return c_call::packed(Refusal::InvalidParameter);
    }
    c_call::put_one(vector(numbers).intensity(), list)
}

// JonesMatrix::diattenuator of two amplitudes. Returns 8.
pub fn diattenuator(numbers: &[f64], list: &mut [f64]) -> u64
    ensures { done result list.new ≡ answered entries (of 4 (λ given. diattenuator (vector given).ex (vector given).ey) numbers.now) list.old }
{
    if numbers.len() != 4 {
        return c_call::packed(Refusal::InvalidParameter);
    }
    diattenuating(vector(numbers), list)
}

// ---- of a Stokes vector

// Its degrees of polarization, linear and circular too, its orientation and its ellipticity. Returns 5.
pub fn stokes_figures(numbers: &[f64], list: &mut [f64]) -> u64
    ensures { done result list.new ≡ answered figures (of 4 (λ given. stokes given) numbers.now) list.old }
{
    if numbers.len() != 4 {
        return c_call::packed(Refusal::InvalidParameter);
    }
    put_figures(stokes(numbers), list)
}

// ---- matrices applied

// JonesMatrix::apply. Returns 4.
pub fn jones_apply(matrix: &[f64], numbers: &[f64], list: &mut [f64]) -> u64
    ensures { done result list.new ≡ answered parts (of_two 8 4 (λ given other. apply (Matrix.jones given) (vector other)) matrix.now numbers.now) list.old }
{
    if matrix.len() != 8 {
        return c_call::packed(Refusal::InvalidParameter);
    }
    if numbers.len() != 4 {
        return c_call::packed(Refusal::InvalidParameter);
    }
    put_vector(jones(matrix).apply(vector(numbers)), list)
}

// JonesMatrix::mul: the first times the second. Returns 8.
pub fn jones_mul(matrix: &[f64], numbers: &[f64], list: &mut [f64]) -> u64
    ensures { done result list.new ≡ answered entries (of_two 8 8 (λ given other. mul (Matrix.jones given) (Matrix.jones other)) matrix.now numbers.now) list.old }
{
    if matrix.len() != 8 {
        return c_call::packed(Refusal::InvalidParameter);
    }
    if numbers.len() != 8 {
        return c_call::packed(Refusal::InvalidParameter);
    }
    c_call::put_jones(jones(matrix).mul(jones(numbers)), list)
}

// MuellerMatrix::apply. Returns 4.
pub fn mueller_apply(matrix: &[f64], numbers: &[f64], list: &mut [f64]) -> u64
    ensures { done result list.new ≡ answered parameters (of_two 16 4 (λ given other. apply_mueller (mueller given) (stokes other)) matrix.now numbers.now) list.old }
{
    if matrix.len() != 16 {
        return c_call::packed(Refusal::InvalidParameter);
    }
    if numbers.len() != 4 {
        return c_call::packed(Refusal::InvalidParameter);
    }
    put_stokes(mueller(matrix).apply(stokes(numbers)), list)
}

// ---- plates, each by its Jones matrix, 8 numbers

// At an angle to the x-axis.
pub fn linear_polarizer(angle_rad: f64, list: &mut [f64]) -> u64
    ensures { done result list.new ≡ written (entries (linear_polarizer angle_rad)) list.old }
{
    c_call::put_jones(JonesMatrix::linear_polarizer(angle_rad), list)
}

// Of a retardance, its fast axis at an angle.
pub fn retarder(retardance_rad: f64, fast_axis_rad: f64, list: &mut [f64]) -> u64
    ensures { done result list.new ≡ written (entries (retarder retardance_rad fast_axis_rad)) list.old }
{
    c_call::put_jones(JonesMatrix::retarder(retardance_rad, fast_axis_rad), list)
}

// Its fast axis at an angle.
pub fn quarter_wave_plate(fast_axis_rad: f64, list: &mut [f64]) -> u64
    ensures { done result list.new ≡ written (entries (quarter_wave_plate fast_axis_rad)) list.old }
{
    c_call::put_jones(JonesMatrix::quarter_wave_plate(fast_axis_rad), list)
}

// The same.
pub fn half_wave_plate(fast_axis_rad: f64, list: &mut [f64]) -> u64
    ensures { done result list.new ≡ written (entries (half_wave_plate fast_axis_rad)) list.old }
{
    c_call::put_jones(JonesMatrix::half_wave_plate(fast_axis_rad), list)
}
