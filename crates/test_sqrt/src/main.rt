// Square roots of 384,000 patterns, in 384 sums of a thousand roots each. The file `stdout` has the sums that
// the machine's own square root gives (`sums.c`).
#![tactic(auto)]

ghost use Rattle.std.specs.Prelude.{◌<◌};

// The next random pattern: Marsaglia's xorshift.
fn next(s: u64) -> u64 {
    let a = s ^ (s << 13);
    let b = a ^ (a >> 7);
    b ^ (b << 17)
}

// The value that a pattern stands for.
fn value(bits: u64) -> f64 {
    ieee::from_words((bits / 0x1_0000_0000) as u32, (bits % 0x1_0000_0000) as u32)
}

// The pattern of a value, and 1 for a NaN.
fn pattern(x: f64) -> u64 {
    if x == x { f64::to_bits(x) } else { 1 }
}

// A sum, turned by 7 digits, with the pattern of the root of one more value.
fn with_root(sum: u64, bits: u64) -> u64 {
    (sum << 7) ^ (sum >> 57) ^ pattern(math_sqrt::sqrt(value(bits)))
}

// A thousand roots from the generator's state s on, each pattern shifted down by `down`: 1 for patterns with
// no sign, and from 12 on for subnormals.
fn of_patterns(s: u64, down: u64) -> u64
    requires { down < 64 }
{
    let mut state = s;
    let mut sum: u64 = 0;
    for _ in 0..1000u64 {
        state = next(state);
        sum = with_root(sum, state >> down);
    }
    sum
}

// The pattern of a square, as rounded: of a number from 2 ^ -511 to 2 ^ 513 whose last `cut` digits are 0.
fn square(state: u64, cut: u64) -> u64
    requires { cut < 64 }
{
    let v = value((state >> cut << cut) % 0x4000_0000_0000_0000 + 0x2000_0000_0000_0000);
    pattern(v * v)
}

// A thousand roots next to squares: of 250 squares, each with the three patterns that differ from it in the
// last two digits. With a `cut` of 27 the squares are exact.
fn of_squares(s: u64, cut: u64) -> u64
    requires { cut < 64 }
{
    let mut state = s;
    let mut sum: u64 = 0;
    for _ in 0..250u64 {
        state = next(state);
        let b = square(state, cut);
        sum = with_root(with_root(with_root(with_root(sum, b), b ^ 1), b ^ 2), b ^ 3);
    }
    sum
}

fn line(sum: u64) {
    io::print_hex(1, sum, 16);
    io::write_all(1, b"\n");
}

fn main() {
    let mut state: u64 = 88172645463325252;
    for i in 0..256u64 {
        line(of_patterns(state, i / 4));
        state = next(state);
    }
    for i in 0..128u64 {
        line(of_squares(state, i / 64 * 27));
        state = next(state);
    }
}
