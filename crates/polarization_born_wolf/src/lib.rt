// The Mueller matrix of a Jones matrix over Stokes vectors with S3 = 2·Im(Ex*·Ey), as Born and Wolf have them
// (document 02, slip 8). `to_mueller` of polarization_mueller is the Rust's.
#![tactic(auto)]

ghost use Rattle.std.specs.Prelude.{◌≡◌};
ghost use Rattle.polarization_born_wolf.specs.Conversion.{transformed, from_six, to_mueller_born_wolf};

use polarization_mueller::{JonesMatrix, MuellerMatrix};
use polarization_stokes::{JonesVector, StokesVector};
use thin_film_complex::Complex;

// The Stokes vector of the beam that (ex, ey) becomes.
fn transformed(j: JonesMatrix, ex: Complex, ey: Complex) -> StokesVector
    ensures { result ≡ transformed j ex ey }
{
    j.apply(JonesVector::new(ex, ey)).to_stokes()
}

// A Mueller matrix from what the beams (1, 0), (0, 1), (1, 1), (1, -1), (1, i) and (1, -i) become.
fn from_six(
    x: StokesVector,
    y: StokesVector,
    plus: StokesVector,
    minus: StokesVector,
    plus_i: StokesVector,
    minus_i: StokesVector,
) -> MuellerMatrix
    ensures { result ≡ from_six x y plus minus plus_i minus_i }
{
    MuellerMatrix {
        m: [
            0.5 * (x.s0 + y.s0),
            0.5 * (x.s0 - y.s0),
            0.25 * (plus.s0 - minus.s0),
            0.25 * (plus_i.s0 - minus_i.s0),
            0.5 * (x.s1 + y.s1),
            0.5 * (x.s1 - y.s1),
            0.25 * (plus.s1 - minus.s1),
            0.25 * (plus_i.s1 - minus_i.s1),
            0.5 * (x.s2 + y.s2),
            0.5 * (x.s2 - y.s2),
            0.25 * (plus.s2 - minus.s2),
            0.25 * (plus_i.s2 - minus_i.s2),
            0.5 * (x.s3 + y.s3),
            0.5 * (x.s3 - y.s3),
            0.25 * (plus.s3 - minus.s3),
            0.25 * (plus_i.s3 - minus_i.s3),
        ],
    }
}

pub fn to_mueller_born_wolf(j: JonesMatrix) -> MuellerMatrix
    ensures { result ≡ to_mueller_born_wolf j }
{
    let zero = Complex::zero();
    let one = Complex::new(1.0, 0.0);
    from_six(
        transformed(j, one, zero),
        transformed(j, zero, one),
        transformed(j, one, one),
        transformed(j, one, Complex::new(-1.0, 0.0)),
        transformed(j, one, Complex::new(0.0, 1.0)),
        transformed(j, one, Complex::new(0.0, -1.0)),
    )
}
