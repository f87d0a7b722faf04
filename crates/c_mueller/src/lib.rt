// dihkelu_to_mueller and dihkelu_mueller_born_wolf: a Jones matrix from 8 numbers that were lent, its Mueller
// matrix to a list that was lent.
#![tactic(auto)]

ghost use Rattle.std.specs.Prelude.{◌≡◌, length};
ghost use Rattle.polarization_mueller.specs.Mueller.{to_mueller};
ghost use Rattle.polarization_born_wolf.specs.Conversion.{to_mueller_born_wolf};
ghost use Rattle.c_call.specs.Call.{done, answered};
ghost use Rattle.c_call.specs.Layout.{rows};
ghost use Rattle.c_mueller.specs.Mueller.{jones, converted};

use polarization_mueller::JonesMatrix;
use refusal::Refusal;
use thin_film_complex::Complex;

// The Jones matrix of 8 numbers: m00, m01, m10, m11, each as re, im.
fn jones(numbers: &[f64]) -> JonesMatrix
    requires { length numbers.now ≡ 8 }
    ensures { result ≡ jones numbers.now }
{
    JonesMatrix {
        m: [
            Complex {
                re: numbers[0],
                im: numbers[1],
            },
            Complex {
                re: numbers[2],
                im: numbers[3],
            },
            Complex {
                re: numbers[4],
                im: numbers[5],
            },
            Complex {
                re: numbers[6],
                im: numbers[7],
            },
        ],
    }
}

// JonesMatrix::to_mueller: writes the matrix to the front of list and returns 16; or a refusal: 1 where
// there are not 8 numbers, then 8 for a list that is too short.
pub fn to_mueller(numbers: &[f64], list: &mut [f64]) -> u64
    ensures { done result list.new ≡ answered rows (converted to_mueller numbers.now) list.old }
{
    if numbers.len() != 8 {
        return c_call::packed(Refusal::InvalidParameter);
    }
    c_call::put_mueller(jones(numbers).to_mueller(), list)
}

// The same of to_mueller_born_wolf.
pub fn mueller_born_wolf(numbers: &[f64], list: &mut [f64]) -> u64
    ensures { done result list.new ≡ answered rows (converted to_mueller_born_wolf numbers.now) list.old }
{
    if numbers.len() != 8 {
        return c_call::packed(Refusal::InvalidParameter);
    }
    c_call::put_mueller(
        polarization_born_wolf::to_mueller_born_wolf(jones(numbers)),
        list,
    )
}
