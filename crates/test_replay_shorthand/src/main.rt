// Replays recorded readings of the stack shorthand: reads records from standard input, calls the function for each,
// and prints how many answers agree, and the first that does not, whole.
// README.md has the record format.
#![tactic(auto)]

use refusal::Refusal;
use thin_film_coating::Layers;
use thin_film_solver::ThinFilmLayer;

fn layer_out(out: &mut [u64; 256], at: usize, l: ThinFilmLayer) {
    let w = [l.n, l.k, l.thickness_nm];
    test_records::write(out, at, &w);
}

// 0, the count of layers and their numbers.
fn layers_out(out: &mut [u64; 256], layers: Layers) -> usize {
    let items = layers.items;
    let count = layers.count;
    if count > 64 {
        return 0;
    }
    out[0] = 0;
    out[1] = count as u64;
    for (i, layer) in items[..count].iter().enumerate() {
        layer_out(out, 2 + 3 * i, *layer);
    }
    2 + 3 * count
}

// A refusal's number and place, or 0 and the layers.
fn stack_out(out: &mut [u64; 256], stack: Result<Layers, Refusal>) -> usize {
    match stack {
        Ok(layers) => layers_out(out, layers),
        Err(r) => test_records::write_refusal(out, r),
    }
}

// How many words the function gave; 0 where it is not this one.
fn call(f: usize, a: &[u8], out: &mut [u64; 256]) -> usize {
    if f != 145 {
        return 0;
    }
    let x = test_records::four_at(a, 0);
    stack_out(
        out,
        thin_film_shorthand::stack(test_records::bytes_at(a, 4), x.a, x.b, x.c, x.d),
    )
}

struct Functions;

impl test_tally::Functions for Functions {
    fn answer(&self, f: usize, a: &[u8], out: &mut [u64; 256]) -> usize {
        call(f, a, out)
    }
}

fn main() {
    test_tally::replay(&mut [0u8; 6144], &Functions).print();
}
