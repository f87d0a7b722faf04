// Replays recorded answers of the C interface: reads records from standard input, calls the export
// that each names, and prints for each export how many answers agree, and the first that does not, whole.
// README.md has the record format.
#![tactic(auto)]

mod calls;

struct Functions;

impl test_tally::Functions for Functions {
    fn answer(&self, f: usize, a: &[u8], out: &mut [u64; 256]) -> usize {
        calls::call(f, a, out)
    }
}

fn main() {
    test_tally::replay(&mut [0u8; 43008], &Functions).print();
}
