// The words of a surface's answers.
ghost use Rattle.std.specs.Prelude.{◌≤◌};

use surface::{Answers, Powers};

fn powers_out(out: &mut [u64; 256], r: Powers) {
    let w = [
        r.reflectance_s,
        r.reflectance_p,
        r.transmittance_s,
        r.transmittance_p,
    ];
    test_records::write(out, 2, &w);
}

// The matrices, from a place on; how many words there are then.
fn matrices_out(out: &mut [u64; 256], at: usize, a: Answers) -> usize
    requires { at ≤ 18 }
{
    let reflection = a.reflection;
    let transmission = a.transmission;
    let reflected = a.reflection_mueller;
    let transmitted = a.transmission_mueller;
    test_records::write_jones(out, at, reflection);
    test_records::write_jones(out, at + 8, transmission);
    test_records::write_mueller(out, at + 16, reflected);
    test_records::write_mueller(out, at + 32, transmitted);
    at + 48
}

// How many words there are.
pub fn answers_out(out: &mut [u64; 256], a: Answers) -> usize {
    out[0] = 0;
    if a.coated {
        out[1] = 1;
        let response = a.response;
        test_records::write_response(out, 2, response);
        matrices_out(out, 18, a)
    } else {
        out[1] = 0;
        let powers = a.powers;
        powers_out(out, powers);
        matrices_out(out, 6, a)
    }
}
