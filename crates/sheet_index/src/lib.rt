// The index of a sheet: of each SURFACE where it begins, how many layers it has, and the sine and the cosine of its angle.
#![tactic(auto)]

ghost use Rattle.std.specs.Prelude.{◌≡◌, ◌+◌, ◌-◌, ◌≤◌, get_or};
ghost use Rattle.std.specs.Float.{nan};
ghost use Rattle.math_waves.specs.Waves.{at_most_16};
ghost use Rattle.sheet.specs.Internal.{begin};
ghost use Rattle.sheet_index.specs.Index.{filled, at_most_64, layers_of, angle_of, sine_of, cosine_of};
ghost use Rattle.sheet_index.specs.Internal.{stored};

// n SURFACEs from the i-th on, which begins at a place: where each begins, how many layers it has, and its angle. Where the next begins.
fn gather(
    src: &[u8],
    first: usize,
    i: usize,
    n: usize,
    begins: &mut [usize; 64],
    counts: &mut [usize; 64],
    angles: &mut [f64; 16],
) -> usize
    requires { ((n ≤ 16) × (i + n ≤ 64)) × (first ≡ begin src.now i) }
    ensures { ((result ≡ begin src.now (i + n)) × (begins.new ≡ stored (begin src.now) i n begins.old)) × ((counts.new ≡ stored (layers_of src.now) i n counts.old) × (angles.new ≡ filled (λ k. angle_of src.now (i + k)) n angles.old)) }
{
    let mut at = first;
    for k in 0..n {
        let surface = sheet::onto(src, at);
        let floats = sheet::floats_at(src, surface);
        let run = sheet::layers_on(src, surface);
        begins[i + k] = at;
        counts[i + k] = run.count;
        angles[k] = floats.third;
        at = run.next;
    }
    at
}

// n sines and cosines stored from the i-th place on.
fn put(
    i: usize,
    n: usize,
    sin: &[f64; 16],
    cos: &[f64; 16],
    sines: &mut [f64; 64],
    cosines: &mut [f64; 64],
)
    requires { (n ≤ 16) × (i + n ≤ 64) }
    ensures { (sines.new ≡ stored (λ k. get_or sin.now (k - i) nan) i n sines.old) × (cosines.new ≡ stored (λ k. get_or cos.now (k - i) nan) i n cosines.old) }
{
    for k in 0..n {
        sines[i + k] = sin[k];
        cosines[i + k] = cos[k];
    }
}

// The index of n SURFACEs from the i-th on, whose sines and cosines are worked out together.
fn some(
    src: &[u8],
    first: usize,
    i: usize,
    n: usize,
    begins: &mut [usize; 64],
    counts: &mut [usize; 64],
    sines: &mut [f64; 64],
    cosines: &mut [f64; 64],
) -> usize
    requires { ((n ≤ 16) × (i + n ≤ 64)) × (first ≡ begin src.now i) }
    ensures { ((result ≡ begin src.now (i + n)) × (begins.new ≡ stored (begin src.now) i n begins.old)) × ((counts.new ≡ stored (layers_of src.now) i n counts.old) × ((sines.new ≡ stored (sine_of src.now) i n sines.old) × (cosines.new ≡ stored (cosine_of src.now) i n cosines.old))) }
{
    let mut angles = [1.0f64; 16];
    let next = gather(src, first, i, n, begins, counts, &mut angles);
    let mut sin = [1.0f64; 16];
    let mut cos = [1.0f64; 16];
    math_waves::sin_cos(&angles, n, &mut sin, &mut cos);
    put(i, n, &sin, &cos, sines, cosines);
    next
}

fn at_most_16(n: usize) -> usize
    ensures { result ≡ at_most_16 n }
{
    if n < 16 { n } else { 16 }
}

fn at_most_64(n: usize) -> usize
    ensures { result ≡ at_most_64 n }
{
    if n < 64 { n } else { 64 }
}

// The index of the first SURFACEs of a sheet in grammar: of so many, and of 64 at the most.
pub fn index(
    src: &[u8],
    count: usize,
    begins: &mut [usize; 64],
    counts: &mut [usize; 64],
    sines: &mut [f64; 64],
    cosines: &mut [f64; 64],
)
    ensures { ((begins.new ≡ filled (begin src.now) (at_most_64 count) begins.old) × (counts.new ≡ filled (layers_of src.now) (at_most_64 count) counts.old)) × ((sines.new ≡ filled (sine_of src.now) (at_most_64 count) sines.old) × (cosines.new ≡ filled (cosine_of src.now) (at_most_64 count) cosines.old)) }
{
    let total = at_most_64(count);
    let mut first = sheet::begin_of(src, 0);
    let mut i = 0;
    while i < total {
        let n = at_most_16(total - i);
        first = some(src, first, i, n, begins, counts, sines, cosines);
        i += n;
    }
}
