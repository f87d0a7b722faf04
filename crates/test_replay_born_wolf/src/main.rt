// Replays recorded Mueller matrices over Born and Wolf's Stokes vectors: reads records from standard input, calls the
// function for each, and prints how many answers agree, and the first that does not, whole.
// README.md has the record format.
#![tactic(auto)]

use polarization_mueller::JonesMatrix;
use polarization_stokes::JonesVector;
use thin_film_complex::Complex;

// The matrix by its 16 numbers.
fn matrix_out(out: &mut [u64; 256], j: JonesMatrix) -> usize {
    test_records::write_mueller(out, 0, polarization_born_wolf::to_mueller_born_wolf(j));
    16
}

// The matrix applied to a beam's Stokes vector.
fn applied_out(out: &mut [u64; 256], j: JonesMatrix, v: JonesVector) -> usize {
    let s = polarization_born_wolf::to_mueller_born_wolf(j).apply(v.to_stokes());
    let w = [s.s0, s.s1, s.s2, s.s3];
    test_records::write(out, 0, &w);
    4
}

// How many words the function gave; 0 where it is none of these.
fn call(f: usize, a: &[u8], out: &mut [u64; 256]) -> usize {
    let j = test_records::jones_at(a, 0);
    match f {
        150 => matrix_out(out, j),
        151 => {
            let x = test_records::four_at(a, 8);
            let beam = JonesVector::new(Complex::new(x.a, x.b), Complex::new(x.c, x.d));
            applied_out(out, j, beam)
        }
        _ => 0,
    }
}

struct Functions;

impl test_tally::Functions for Functions {
    fn answer(&self, f: usize, a: &[u8], out: &mut [u64; 256]) -> usize {
        call(f, a, out)
    }
}

fn main() {
    test_tally::replay(&mut [0u8; 6144], &Functions).print();
}
