// Recorded answers: their words, and the words of an answer. oracle/README.md ("Records") has the format.
// A word has the bytes of two words of a sheet, and is read by the sheet's reader.
#![tactic(auto)]

ghost use Rattle.std.specs.Prelude.{◌≡◌, slice_set};
ghost use Rattle.std.specs.Float.{binary64};
ghost use Rattle.std.specs.Float.Ieee.{of_bits};
ghost use Rattle.refusal.specs.Outcome.{number_of, place_of};
ghost use Rattle.test_records.specs.Parts.{four, jones, response, of_jones, of_response};
ghost use Rattle.test_records.specs.Words.{word, small, behind, header, words_of, arguments, results, pattern, written, agree, recorded};

use polarization_mueller::{JonesMatrix, MuellerMatrix};
use refusal::Refusal;
use thin_film_complex::Complex;
use thin_film_solver::CoatingResponse;

// ---- from bytes

// The i-th word, counted from 0; 0 past the last.
#[tactic(auto, unfolding(sheet::specs::Words::word, sheet::specs::Words::float))]
pub fn word_at(b: &[u8], i: usize) -> u64
    ensures { result ≡ word b.now i }
{
    if i < b.len() / 4 {
        sheet::word_from(b, 2 * i) as u64 * 0x1_0000_0000 + sheet::word_from(b, 2 * i + 1) as u64
    } else {
        0
    }
}

// The float of the i-th word.
#[tactic(auto, unfolding(sheet::specs::Words::word, sheet::specs::Words::float))]
pub fn float_at(b: &[u8], i: usize) -> f64
    ensures { result ≡ of_bits binary64 (word b.now i) }
{
    if i < b.len() / 4 {
        sheet::float_from(b, 2 * i)
    } else {
        0.0
    }
}

// Four floats.
#[derive(Clone, Copy)]
pub struct Four {
    pub a: f64,
    pub b: f64,
    pub c: f64,
    pub d: f64,
}

// Those of the words from the i-th on.
#[tactic(auto, unfolding(sheet::specs::Words::word, sheet::specs::Words::float))]
pub fn four_at(b: &[u8], i: usize) -> Four
    ensures { result ≡ four b.now i }
{
    if i < b.len() / 4 {
        Four {
            a: float_at(b, i),
            b: float_at(b, i + 1),
            c: float_at(b, i + 2),
            d: float_at(b, i + 3),
        }
    } else {
        Four {
            a: 0.0,
            b: 0.0,
            c: 0.0,
            d: 0.0,
        }
    }
}

// The Jones matrix in the eight words from the i-th on.
#[tactic(auto, unfolding(sheet::specs::Words::word, sheet::specs::Words::float))]
pub fn jones_at(b: &[u8], i: usize) -> JonesMatrix
    ensures { result ≡ jones b.now i }
{
    if i >= b.len() / 4 {
        let none = Complex::zero();
        return JonesMatrix {
            m: [none, none, none, none],
        };
    }
    let x = four_at(b, i);
    let y = four_at(b, i + 4);
    let m0 = Complex::new(x.a, x.b);
    let m1 = Complex::new(x.c, x.d);
    let m2 = Complex::new(y.a, y.b);
    let m3 = Complex::new(y.c, y.d);
    JonesMatrix {
        m: [m0, m1, m2, m3],
    }
}

// The response in the first sixteen words.
pub fn response_at(b: &[u8]) -> CoatingResponse
    ensures { result ≡ response b.now }
{
    let r = four_at(b, 0);
    let t = four_at(b, 4);
    let powers = four_at(b, 8);
    CoatingResponse {
        rs: Complex::new(r.a, r.b),
        rp: Complex::new(r.c, r.d),
        ts: Complex::new(t.a, t.b),
        tp: Complex::new(t.c, t.d),
        reflectance_s: powers.a,
        reflectance_p: powers.b,
        transmittance_s: powers.c,
        transmittance_p: powers.d,
        phase_rs_rad: float_at(b, 12),
        phase_rp_rad: float_at(b, 13),
        absorptance_s: float_at(b, 14),
        absorptance_p: float_at(b, 15),
    }
}

// The low half of the i-th word.
#[tactic(auto, unfolding(sheet::specs::Words::word))]
pub fn small_at(b: &[u8], i: usize) -> u32
    ensures { result ≡ small b.now i }
{
    if i < b.len() / 4 {
        sheet::word_from(b, 2 * i + 1)
    } else {
        0
    }
}

// The bytes behind the i-th word, which is their count; none where they do not all stand there.
#[tactic(auto, unfolding(crate::specs::Words::behind))]
pub fn bytes_at(b: &[u8], i: usize) -> &[u8]
    ensures { result.now ≡ behind b.now i }
{
    if i >= b.len() / 8 {
        return &b[..0];
    }
    let n = small_at(b, i) as usize;
    let start = 8 * i + 8;
    if b.len() - start < n {
        return &b[..0];
    }
    let end = start + n;
    &b[start..end]
}

// What a record's first word says: the function, and the counts of its argument and result words.
#[derive(Clone, Copy)]
pub struct Header {
    pub function: usize,
    pub args: usize,
    pub results: usize,
}

pub fn header_of(b: &[u8]) -> Header
    ensures { result ≡ header b.now }
{
    let w = sheet::word_from(b, 0) as usize;
    let results = sheet::word_from(b, 1) as usize / 0x1_0000;
    Header {
        function: w / 0x1_0000,
        args: w % 0x1_0000,
        results,
    }
}

// The n words behind the first so many; none where they do not all stand there.
#[tactic(auto, unfolding(crate::specs::Words::words_of))]
fn words_of(body: &[u8], first: usize, n: usize) -> &[u8]
    ensures { result.now ≡ words_of body.now first n }
{
    if first > body.len() / 8 || n > body.len() / 8 - first {
        return &body[..0];
    }
    let start = 8 * first;
    let end = start + 8 * n;
    &body[start..end]
}

// A record's argument words.
pub fn arguments(h: Header, body: &[u8]) -> &[u8]
    ensures { result.now ≡ arguments h body.now }
{
    words_of(body, 0, h.args)
}

// A record's result words, behind those.
pub fn results(h: Header, body: &[u8]) -> &[u8]
    ensures { result.now ≡ results h body.now }
{
    words_of(body, h.args, h.results)
}

// ---- an answer

// The pattern of a float; every NaN has the same.
#[tactic(auto, unfolding(crate::specs::Words::pattern))]
pub fn bits(x: f64) -> u64
    ensures { result ≡ pattern x }
{
    if x == x {
        f64::to_bits(x)
    } else {
        0x7ff8_0000_0000_0000
    }
}

// Writes the patterns of some floats from a place on; those past the end are dropped.
pub fn write(out: &mut [u64; 256], at: usize, x: &[f64])
    ensures { out.new ≡ written out.old at x.now }
{
    let room = out.len().saturating_sub(at);
    for (i, value) in x.iter().enumerate() {
        if i >= room {
            return;
        }
        out[at + i] = bits(*value);
    }
}

// The floats of a Jones matrix, row by row.
fn of_jones(j: JonesMatrix) -> [f64; 8]
    ensures { result ≡ of_jones j }
{
    let m = j.m;
    let a = m[0];
    let b = m[1];
    let c = m[2];
    let d = m[3];
    [a.re, a.im, b.re, b.im, c.re, c.im, d.re, d.im]
}

// The floats of a response, in the order of its fields.
fn of_response(r: CoatingResponse) -> [f64; 16]
    ensures { result ≡ of_response r }
{
    let rs = r.rs;
    let rp = r.rp;
    let ts = r.ts;
    let tp = r.tp;
    [
        rs.re,
        rs.im,
        rp.re,
        rp.im,
        ts.re,
        ts.im,
        tp.re,
        tp.im,
        r.reflectance_s,
        r.reflectance_p,
        r.transmittance_s,
        r.transmittance_p,
        r.phase_rs_rad,
        r.phase_rp_rad,
        r.absorptance_s,
        r.absorptance_p,
    ]
}

// Writes the floats of a Jones matrix from a place on.
pub fn write_jones(out: &mut [u64; 256], at: usize, j: JonesMatrix)
    ensures { out.new ≡ written out.old at (of_jones j) }
{
    let w = of_jones(j);
    write(out, at, &w);
}

// Writes the floats of a Mueller matrix, row by row, from a place on.
pub fn write_mueller(out: &mut [u64; 256], at: usize, x: MuellerMatrix)
    ensures { out.new ≡ written out.old at x.m }
{
    let m = x.m;
    write(out, at, &m);
}

// Writes the floats of a response from a place on.
pub fn write_response(out: &mut [u64; 256], at: usize, r: CoatingResponse)
    ensures { out.new ≡ written out.old at (of_response r) }
{
    let w = of_response(r);
    write(out, at, &w);
}

// Writes a refusal's number and place, from the first word on; how many words they are.
pub fn write_refusal(out: &mut [u64; 256], r: Refusal) -> usize
    ensures count { result ≡ 2 }
    ensures words { out.new ≡ slice_set (slice_set out.old 0 (number_of r)) 1 (place_of r) }
{
    out[0] = r.number() as u64;
    out[1] = r.place() as u64;
    2
}

// Whether some words are the recorded ones.
fn alike(got: &[u64], want: &[u8]) -> bool
    ensures { result ≡ agree got.now want.now 0 }
{
    for (i, word) in got.iter().enumerate() {
        if *word != word_at(want, i) {
            return false;
        }
    }
    got.len() == want.len() / 8
}

// Whether the first n of some words are the recorded ones; there must be so many.
pub fn same(got: &[u64], n: usize, want: &[u8]) -> bool
    ensures { result ≡ recorded got.now n want.now }
{
    n <= got.len() && alike(&got[..n], want)
}
