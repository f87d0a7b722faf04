// Replays recorded answers of thin films and names: reads records from standard input, calls the function that each names,
// and prints for each function how many answers agree, and the first that does not, whole.
// README.md has the record format.
#![tactic(auto)]

mod films;
mod names;

// How many words the function gave; 0 where it is not one of these.
fn call(f: usize, a: &[u8], out: &mut [u64; 256]) -> usize {
    if f < 80 {
        films::call(f, a, out)
    } else {
        names::call(f, a, out)
    }
}

struct Functions;

impl test_tally::Functions for Functions {
    fn answer(&self, f: usize, a: &[u8], out: &mut [u64; 256]) -> usize {
        call(f, a, out)
    }
}

fn main() {
    test_tally::replay(&mut [0u8; 6144], &Functions).print();
}
