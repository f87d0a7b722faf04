// The functions 160 to 175: of sheets and trains. Each gives its count of words; 0 where it is not one
// of these, or where a run changed what it must leave.
ghost use Rattle.std.specs.Prelude.{◌≤◌};

use super::answers::answers_out;
use refusal::Refusal;
use train_steps::State;

fn state_out(out: &mut [u64; 256], state: State) -> usize {
    let w = [state.s, state.p, state.wavelength_nm];
    out[0] = 0;
    out[1] = state.done as u64;
    test_records::write(out, 2, &w);
    5
}

fn gate_call(src: &[u8], out: &mut [u64; 256]) -> usize {
    match gate::gate(src) {
        Ok(count) => {
            out[0] = 0;
            out[1] = count as u64;
            2
        }
        Err(r) => test_records::write_refusal(out, r),
    }
}

fn moved_out(out: &mut [u64; 256], moved: Result<State, Refusal>) -> usize {
    match moved {
        Ok(state) => state_out(out, state),
        Err(r) => test_records::write_refusal(out, r),
    }
}

// The action of the i-th word: a step, or a retune to the wavelength of that pattern.
fn act(src: &[u8], state: State, a: &[u8], i: usize) -> Result<State, Refusal> {
    if test_records::word_at(a, i) == 0xFFFF_FFFF_FFFF_FFFF {
        train_steps::step(src, state)
    } else {
        train_steps::retune(src, state, test_records::float_at(a, i))
    }
}

// A sum turned by one bit, and a word added without carry.
fn turned(sum: u64, word: u64) -> u64 {
    (sum << 1 | sum >> 63) ^ word
}

// The same with all words of a state, and the number before them.
fn digested(sum: u64, number: u64, state: State) -> u64 {
    let done = turned(turned(sum, number), state.done as u64);
    let powers = turned(
        turned(done, test_records::bits(state.s)),
        test_records::bits(state.p),
    );
    turned(powers, test_records::bits(state.wavelength_nm))
}

// A list of n actions from Start: the last state, all states and numbers in one word, and each number.
fn acts_from(src: &[u8], first: State, n: usize, a: &[u8], out: &mut [u64; 256]) -> usize
    requires { n ≤ 200 }
{
    let mut state = first;
    let mut sum: u64 = 0;
    for i in 0..n {
        let number = match act(src, state, a, i + 1) {
            Ok(next) => {
                state = next;
                0
            }
            Err(r) => r.number() as u64,
        };
        sum = digested(sum, number, state);
        out[i + 6] = number;
    }
    out[5] = sum;
    state_out(out, state);
    n + 6
}

fn actions_call(n: usize, a: &[u8], out: &mut [u64; 256]) -> usize {
    if n > 200 {
        return 0;
    }
    let src = test_records::bytes_at(a, n + 1);
    match train_steps::start(src) {
        Ok(state) => acts_from(src, state, n, a, out),
        Err(r) => test_records::write_refusal(out, r),
    }
}

// Whether a list has the number that it was filled with from a place on.
fn untouched(list: &[f64; 160], from: usize) -> bool {
    list.iter().skip(from).all(|x| *x == -7.25)
}

// A run that lends the first n places of a list.
fn run_call(src: &[u8], n: usize, out: &mut [u64; 256]) -> usize {
    let mut list = [-7.25f64; 160];
    if n > 160 {
        return 0;
    }
    match train_steps::run(src, &mut list[..n]) {
        Ok(count) => {
            let words = 2 * (count as usize);
            test_records::write(out, 2, &list);
            out[0] = 0;
            out[1] = count as u64;
            if untouched(&list, words) {
                words + 2
            } else {
                0
            }
        }
        Err(r) => {
            if untouched(&list, 0) {
                test_records::write_refusal(out, r)
            } else {
                0
            }
        }
    }
}

fn answers_call(src: &[u8], i: u32, out: &mut [u64; 256]) -> usize {
    match sheet_surfaces::surface_answers(src, i) {
        Ok(answers) => answers_out(out, answers),
        Err(r) => test_records::write_refusal(out, r),
    }
}

fn state_at(a: &[u8], i: usize) -> State
    requires { i ≤ 1 }
{
    State {
        done: test_records::small_at(a, i),
        s: test_records::float_at(a, i + 1),
        p: test_records::float_at(a, i + 2),
        wavelength_nm: test_records::float_at(a, i + 3),
    }
}

pub fn call(f: usize, a: &[u8], out: &mut [u64; 256]) -> usize {
    let n = test_records::small_at(a, 0);
    match f {
        160 => gate_call(test_records::bytes_at(a, 0), out),
        170 => moved_out(out, train_steps::start(test_records::bytes_at(a, 0))),
        171 => {
            let src = test_records::bytes_at(a, 4);
            moved_out(out, train_steps::step(src, state_at(a, 0)))
        }
        172 => run_call(test_records::bytes_at(a, 1), n as usize, out),
        173 => answers_call(test_records::bytes_at(a, 1), n, out),
        174 => actions_call(n as usize, a, out),
        175 => {
            let src = test_records::bytes_at(a, 5);
            let wavelength_nm = test_records::float_at(a, 0);
            moved_out(out, train_steps::retune(src, state_at(a, 1), wavelength_nm))
        }
        _ => 0,
    }
}
