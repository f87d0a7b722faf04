// The square root of an `f64`, rounded as IEEE 754 says: to the nearest value, and at a tie to the
// even one. It is right for every argument, with no `requires`: subnormals, both zeros, the
// infinities, negative numbers and NaN.
//
// A guess is made in floats, of which nothing is proved, and whole numbers say whether it is the root.
// A positive finite x is R * 4 ^ k, where R has 105 or 106 binary digits. The root of x is the root of R,
// times 2 ^ k. A whole number q is the one nearest to the root of R where q * (q - 1) < R <= q * (q + 1).
// If no guess is found to be the root, which is rare, the root is taken a digit at a time.
#![tactic(auto)]

ghost use Rattle.std.specs.Prelude.{◌≡◌, ◌+◌, ◌*◌, ◌/◌, ◌%◌, ◌^◌, ◌<◌, ◌≤◌, T, from_bits};
ghost use Rattle.std.specs.Float.{binary64};
ghost use Rattle.math_root.specs.Root.{square_root, closest_root};
ghost use Rattle.math_sqrt.specs.Steps.{radicand, root_bits, Rooted, NearestBits, Close};

// A root cut to a whole number, and what its square leaves of the number.
#[derive(Drop)]
struct Cut {
    root: u64,
    rest: u64,
}

// Cubic(a, b, c, d) is a + b * h + c * h ^ 2 + d * h ^ 3.
#[derive(Drop)]
struct Cubic(f64, f64, f64, f64);

// The root of h from 1/2 to 2 in 64 pieces: the first 32 go from 1/2 to 1, and the others from 1 to 2.
// Each is within one part in 2 ^ 31 of the root, though nothing is proved of that. The compiler
// makes tables of them.
fn piece(i: u64) -> Cubic {
    match i {
        0 => Cubic(0.22267931136, 1.31564022919, -0.86364403103, 0.34014690553),
        1 => Cubic(0.22607986099, 1.29585195655, -0.82525898966, 0.31532635022),
        2 => Cubic(0.22942999532, 1.27693061758, -0.78963554519, 0.29296930816),
        3 => Cubic(0.23273189307, 1.25881469964, -0.75650332147, 0.27277010042),
        4 => Cubic(0.23598758039, 1.24144863260, -0.72562505105, 0.25446815901),
        5 => Cubic(0.23919894537, 1.22478207043, -0.69679175121, 0.23784036530),
        6 => Cubic(0.24236775091, 1.20876927626, -0.66981870910, 0.22269485150),
        7 => Cubic(0.24549564601, 1.19336859359, -0.64454212358, 0.20886595648),
        8 => Cubic(0.24858417583, 1.17854198988, -0.62081628258, 0.19621009821),
        9 => Cubic(0.25163479062, 1.16425466097, -0.59851118005, 0.18460237854),
        10 => Cubic(0.25464885369, 1.15047468707, -0.57751049523, 0.17393377641),
        11 => Cubic(0.25762764855, 1.13717273251, -0.55770987216, 0.16410881661),
        12 => Cubic(0.26057238526, 1.12432178281, -0.53901544905, 0.15504362473),
        13 => Cubic(0.26348420626, 1.11189691375, -0.52134259669, 0.14666429739),
        14 => Cubic(0.26636419145, 1.09987508792, -0.50461483221, 0.13890553104),
        15 => Cubic(0.26921336297, 1.08823497493, -0.48876288073, 0.13170946389),
        16 => Cubic(0.27203268937, 1.07695679217, -0.47372386214, 0.12502469400),
        17 => Cubic(0.27482308951, 1.06602216331, -0.45944058409, 0.11880544401),
        18 => Cubic(0.27758543603, 1.05541399234, -0.44586092561, 0.11301084795),
        19 => Cubic(0.28032055855, 1.04511635108, -0.43293729806, 0.10760434045),
        20 => Cubic(0.28302924658, 1.03511437863, -0.42062617261, 0.10255313195),
        21 => Cubic(0.28571225219, 1.02539419109, -0.40888766475, 0.09782775638),
        22 => Cubic(0.28837029244, 1.01594280052, -0.39768516823, 0.09340168030),
        23 => Cubic(0.29100405164, 1.00674804194, -0.38698503159, 0.08925096408),
        24 => Cubic(0.29361418338, 0.99779850747, -0.37675627186, 0.08535396750),
        25 => Cubic(0.29620131245, 0.98908348682, -0.36697032033, 0.08169109321),
        26 => Cubic(0.29876603656, 0.98059291337, -0.35760079659, 0.07824456266),
        27 => Cubic(0.30130892800, 0.97231731527, -0.34862330705, 0.07499821994),
        28 => Cubic(0.30383053506, 0.96424777101, -0.34001526511, 0.07193735961),
        29 => Cubic(0.30633138350, 0.95637586899, -0.33175573015, 0.06904857529),
        30 => Cubic(0.30881197775, 0.94869367063, -0.32382526332, 0.06631962615),
        31 => Cubic(0.31127280216, 0.94119367672, -0.31620579793, 0.06373931907),
        32 => Cubic(0.31491610218, 0.93029812766, -0.30534427544, 0.06013004587),
        33 => Cubic(0.31972520560, 0.91630570589, -0.29177311391, 0.05574235013),
        34 => Cubic(0.32446301100, 0.90292629879, -0.27917832434, 0.05179014612),
        35 => Cubic(0.32913259958, 0.89011641037, -0.26746431430, 0.04821939693),
        36 => Cubic(0.33373683674, 0.87783674661, -0.25654719710, 0.04498404021),
        37 => Cubic(0.33827839265, 0.86605170748, -0.24635308618, 0.04204463379),
        38 => Cubic(0.34275976042, 0.85472895213, -0.23681667569, 0.03936725991),
        39 => Cubic(0.34718327209, 0.84383902498, -0.22788005317, 0.03692263355),
        40 => Cubic(0.35155111285, 0.83335503296, -0.21949170164, 0.03468537275),
        41 => Cubic(0.35586533366, 0.82325236580, -0.21160565701, 0.03263339842),
        42 => Cubic(0.36012786253, 0.81350845281, -0.20418079369, 0.03074743819),
        43 => Cubic(0.36434051462, 0.80410255054, -0.19718021627, 0.02901061427),
        44 => Cubic(0.36850500122, 0.79501555686, -0.19057073959, 0.02740809961),
        45 => Cubic(0.37262293796, 0.78622984769, -0.18432244272, 0.02592682981),
        46 => Cubic(0.37669585208, 0.77772913313, -0.17840828487, 0.02455526074),
        47 => Cubic(0.38072518908, 0.76949833030, -0.17280377368, 0.02328316377),
        48 => Cubic(0.38471231872, 0.76152345079, -0.16748667766, 0.02210145224),
        49 => Cubic(0.38865854044, 0.75379150057, -0.16243677628, 0.02100203377),
        50 => Cubic(0.39256508836, 0.74629039094, -0.15763564198, 0.01997768423),
        51 => Cubic(0.39643313571, 0.73900885898, -0.15306644964, 0.01902193970),
        52 => Cubic(0.40026379906, 0.73193639643, -0.14871380950, 0.01812900376),
        53 => Cubic(0.40405814198, 0.72506318591, -0.14456362025, 0.01729366748),
        54 => Cubic(0.40781717856, 0.71838004354, -0.14060293962, 0.01651124038),
        55 => Cubic(0.41154187654, 0.71187836740, -0.13681987003, 0.01577749048),
        56 => Cubic(0.41523316025, 0.70555009089, -0.13320345734, 0.01508859231),
        57 => Cubic(0.41889191326, 0.69938764069, -0.12974360100, 0.01444108149),
        58 => Cubic(0.42251898088, 0.69338389863, -0.12643097411, 0.01383181521),
        59 => Cubic(0.42611517244, 0.68753216709, -0.12325695225, 0.01325793747),
        60 => Cubic(0.42968126335, 0.68182613763, -0.12021354983, 0.01271684870),
        61 => Cubic(0.43321799713, 0.67625986233, -0.11729336325, 0.01220617896),
        62 => Cubic(0.43672608716, 0.67082772777, -0.11448951981, 0.01172376434),
        _ => Cubic(0.44020621841, 0.66552443122, -0.11179563198, 0.01126762619),
    }
}

// A guess at the root of h, whose pattern is `bits`.
fn first_guess(h: f64, bits: u64) -> f64 {
    let p = piece(bits / 0x8000_0000_0000 % 64);
    let square = h * h;
    p.0 + p.1 * h + p.2 * square + p.3 * h * square
}

// A better guess from the guess s, by Newton's method. `high` has the upper digits of s, so that its
// square is exact, and so is what s * s leaves of h, but for its last digits.
fn second_guess(h: f64, s: f64) -> f64 {
    let high = (s + 201326592.0) - 201326592.0;
    let left = (h - high * high) - (s + high) * (s - high);
    s + left * (0.5 / s)
}

// x * y modulo 2 ^ 64. The compiler makes one multiplication of it.
fn low_product(x: u64, y: u64) -> u64
    requires { (x < 2 ^ 53) × (y < 2 ^ 53) }
    ensures { result ≡ (x * y) % 2 ^ 64 }
{
    let x0 = x % 0x1_0000_0000;
    let x1 = x / 0x1_0000_0000;
    let y0 = y % 0x1_0000_0000;
    let y1 = y / 0x1_0000_0000;
    std::num::wrapping_add_u64((x0 * y1 + x1 * y0) << 32, x0 * y0)
}

// Whether two patterns have one exponent, and digits that are less than 1024 apart. Nearly all that are
// pass the first test, which is the quicker one; the second is for those on either side of a block's edge.
fn is_close(a: u64, b: u64) -> bool
    ensures { T result → Close a b }
{
    if a / 1024 == b / 1024 {
        true
    } else if a / 0x10_0000_0000_0000 == b / 0x10_0000_0000_0000 {
        let digits = a % 0x10_0000_0000_0000;
        std::num::wrapping_sub_u64(digits + 512, b % 0x10_0000_0000_0000) <= 1024
    } else {
        false
    }
}

// Whether the float with the pattern `root` is the root of the float with the pattern `bits`. Both are
// from 1/2 to 1, or both from 1 to 2. The float product says that q * q is near R, so that
// R - q * (q - 1) is known once it is known modulo 2 ^ 64.
fn is_root(bits: u64, root: u64) -> bool
    requires { (0x3fe0_0000_0000_0000 ≤ bits) × (bits < 0x4000_0000_0000_0000) × (root / 2 ^ 52 ≡ bits / 2 ^ 52) }
    ensures { T result → NearestBits bits root }
{
    let n = f64::from_bits(root);
    if is_close(f64::to_bits(n * n), bits) {
        let d = (bits % 0x10_0000_0000_0000 + 0x10_0000_0000_0000)
            * (2 - bits / 0x10_0000_0000_0000 % 2);
        let q = root % 0x10_0000_0000_0000 + 0x10_0000_0000_0000;
        let over = std::num::wrapping_sub_u64(d << 52, low_product(q, q - 1));
        std::num::wrapping_sub_u64(over, 1) < 2 * q
    } else {
        false
    }
}

// The root of d * 2 ^ 52, cut to a whole number, a binary digit at a time: slow and simple. `step` is
// twice the weight of the digit that is tried next, and `left` is what the root's square leaves,
// divided by that weight.
fn root_by_digits(d: u64) -> Cut
    requires { d < 2 ^ 54 }
    ensures { Rooted (d * 2 ^ 52) result.root result.rest }
{
    let mut q: u64 = 0;
    let mut left = d;
    let mut step: u64 = 0x20_0000_0000_0000;
    while step > 1 {
        step = step / 2;
        let t = 2 * q + step;
        if t <= left {
            left = 2 * (left - t);
            q = q + step;
        } else {
            left = 2 * left;
        }
    }
    Cut {
        root: q,
        rest: left / 2,
    }
}

// The whole number nearest to the root of d * 2 ^ 52.
fn nearest_by_digits(d: u64) -> u64
    requires { d < 2 ^ 54 }
    ensures { result ≡ closest_root (d * 2 ^ 52) 1 }
{
    let r = root_by_digits(d);
    if r.rest > r.root { r.root + 1 } else { r.root }
}

// The root of a normal number, from its pattern. The guess is made for the number times a power of 4
// that brings it to where the pieces are, and `part` is its pattern then.
fn normal_sqrt(bits: u64) -> f64
    requires { (2 ^ 52 ≤ bits) × (bits < 0x7ff0_0000_0000_0000) }
    ensures { result ≡ from_bits binary64 (root_bits bits) }
{
    let field = bits / 0x10_0000_0000_0000;
    let part = bits % 0x20_0000_0000_0000 + 0x3fe0_0000_0000_0000;
    let h = f64::from_bits(part);
    let n = second_guess(h, first_guess(h, part));
    if n > 0.0 {
        let root = f64::to_bits(n);
        if root / 0x10_0000_0000_0000 == part / 0x10_0000_0000_0000 {
            if is_root(part, root) {
                if part == bits {
                    return f64::from_bits(root);
                }
                return f64::from_bits(
                    root + field / 2 * 0x10_0000_0000_0000 - 0x1ff0_0000_0000_0000,
                );
            }
        }
    }
    // the digit that the root's exponent takes up adds 1 to the exponent's field
    let d = (bits % 0x10_0000_0000_0000 + 0x10_0000_0000_0000) * (2 - field % 2);
    f64::from_bits((field + 1021) / 2 * 0x10_0000_0000_0000 + nearest_by_digits(d))
}

// The root of a subnormal number, from its pattern. Its digits are moved up by their leading zeros,
// which makes them those of a normal number: the subnormal one, times 2 ^ 108.
fn subnormal_sqrt(bits: u64) -> f64
    requires { (0 < bits) × (bits < 2 ^ 52) }
    ensures { result ≡ square_root binary64 (from_bits binary64 bits) }
{
    let up = u64::leading_zeros(bits) - 11;
    let lifted = (bits << up) + (108 - (up as u64)) * 0x10_0000_0000_0000;
    let root = f64::to_bits(normal_sqrt(lifted));
    f64::from_bits(root - 54 * 0x10_0000_0000_0000)
}

// The square root of x.
pub fn sqrt(x: f64) -> f64
    ensures { result ≡ square_root binary64 x }
{
    if x > 0.0 {
        let bits = f64::to_bits(x);
        if bits < 0x10_0000_0000_0000 {
            subnormal_sqrt(bits)
        } else if bits < 0x7ff0_0000_0000_0000 {
            normal_sqrt(bits)
        } else {
            x
        }
    } else if x == 0.0 {
        x
    } else {
        0.0 / 0.0
    }
}

// The square root of x. It is quick for an x from 1/2 to 2 whose root is n.
pub fn sqrt_guessed(x: f64, n: f64) -> f64
    ensures { result ≡ square_root binary64 x }
{
    if x >= 0.5 {
        let bits = f64::to_bits(x);
        if bits < 0x4000_0000_0000_0000 {
            if n >= 0.5 {
                let root = f64::to_bits(n);
                if root / 0x10_0000_0000_0000 == bits / 0x10_0000_0000_0000 {
                    if is_root(bits, root) {
                        return n;
                    }
                }
            }
        }
    }
    sqrt(x)
}

// The square root of x. It is quick for an x from 1/2 to 2 whose root is near s.
pub fn sqrt_near(x: f64, s: f64) -> f64
    ensures { result ≡ square_root binary64 x }
{
    sqrt_guessed(x, second_guess(x, s))
}
