// Sheets for the old reduction program, which reads edition 1 only (document 02, slip 6): an edition 1
// sheet is written from an edition 2 sheet.
#![tactic(auto)]

ghost use Rattle.std.specs.Prelude.{◌≡◌, [], ◌∷◌, ◌++◌, ◌+◌, ◌*◌, ◌/◌, ◌%◌, ◌^◌, ◌≤◌, ◌<◌, length, get_or, drop};
ghost use Rattle.std.proofs.lemmas.List.Edits.{sets};
ghost use Rattle.std.specs.Float.{binary64};
ghost use Rattle.std.specs.Float.Ieee.{to_bits};
ghost use Rattle.refusal.specs.Outcome.{answer, outcome};
ghost use Rattle.sheet.specs.Words.{word, count, kind};
ghost use Rattle.sheet.specs.Internal.{next_place};
ghost use Rattle.sheet.specs.Sheet.{Sheet, bytes, encode};
ghost use Rattle.gate.specs.Gate.{gated};
ghost use Rattle.sheet_edition_1.specs.Edition.{translated, to_edition_1};
ghost use Rattle.sheet_edition_1.specs.Internal.{new_size, layer_words, new_words, Room};

use refusal::Refusal;

// ---- words

// The pattern of a float; every NaN has the same. No index of an admitted sheet is a NaN.
fn pattern(x: f64) -> u64
    ensures { result ≡ to_bits binary64 x }
{
    if x != x {
        0x7ff8_0000_0000_0000
    } else {
        f64::to_bits(x)
    }
}

// Its high word.
fn high_word(x: f64) -> u32
    ensures { result ≡ to_bits binary64 x / 2 ^ 32 }
{
    (pattern(x) / 0x1_0000_0000) as u32
}

// Its low word.
fn low_word(x: f64) -> u32
    ensures { result ≡ to_bits binary64 x % 2 ^ 32 }
{
    (pattern(x) % 0x1_0000_0000) as u32
}

// A word at a place of the output, high byte first.
fn put_word(output: &mut [u8], to: usize, w: u32)
    requires { 4 * to + 4 ≤ length output.old }
    ensures { output.new ≡ sets output.old (4 * to) (bytes (w ∷ [])) }
{
    let i = 4 * to;
    output[i] = (w / 0x100_0000) as u8;
    output[i + 1] = (w / 0x1_0000 % 0x100) as u8;
    output[i + 2] = (w / 0x100 % 0x100) as u8;
    output[i + 3] = (w % 0x100) as u8;
}

// ---- blocks

// How many words the block at a place becomes: a kind 6 becomes a LAYER, and all else keeps its words.
fn new_size(src: &[u8], at: usize) -> usize
    ensures { result ≡ new_size src.now at }
{
    if sheet::kind_at(src, at) == 6 {
        return 7;
    }
    sheet::next_place(src, at) - at
}

// The j-th word of the LAYER that the kind 6 at a place becomes: its index at a wavelength, k +0, its thickness.
fn layer_word(src: &[u8], at: usize, wavelength_nm: f64, j: usize) -> u32
    requires { (kind (word src.now at) ≡ 6) × (j < 7) }
    ensures { result ≡ get_or (layer_words wavelength_nm src.now at) j 0 }
{
    let film = sheet_values::cauchy_film(wavelength_nm, sheet_values::cauchy_at(src, at));
    if j == 0 {
        return 0x4000_0000;
    }
    if j == 1 {
        return high_word(film.n);
    }
    if j == 2 {
        return low_word(film.n);
    }
    if j == 3 {
        return high_word(film.k);
    }
    if j == 4 {
        return low_word(film.k);
    }
    sheet::word_from(src, at + j + 2)
}

// The j-th word of what the block at a place becomes: OPEN's payload is 1, a kind 6 is a LAYER, all else is as it was.
fn new_word(src: &[u8], at: usize, wavelength_nm: f64, j: usize) -> u32
    requires { j < length (new_words wavelength_nm src.now at) }
    ensures { result ≡ get_or (new_words wavelength_nm src.now at) j 0 }
{
    let kind = sheet::kind_at(src, at);
    if kind == 1 {
        return 0x1000_0001;
    }
    if kind == 6 {
        return layer_word(src, at, wavelength_nm, j);
    }
    sheet::word_from(src, at + j)
}

// What the block at a place becomes, at a place of the output; the place after it.
fn put_block(src: &[u8], at: usize, wavelength_nm: f64, to: usize, output: &mut [u8]) -> usize
    requires { (next_place src.now at ≤ count src.now) × (4 * (to + new_size src.now at) ≤ length output.old) }
    ensures { (output.new ≡ sets output.old (4 * to) (bytes (new_words wavelength_nm src.now at))) × (result ≡ to + new_size src.now at) }
{
    let n = new_size(src, at);
    for j in 0..n {
        put_word(output, to + j, new_word(src, at, wavelength_nm, j));
    }
    to + n
}

// ---- sheets

// How many bytes the new sheet has.
fn new_length(src: &[u8]) -> usize
    ensures { (x : Sheet) → gated src.now ≡ answer x → result ≡ length (encode (translated x)) }
{
    let total = src.len() / 4;
    let mut at: usize = 0;
    let mut n: usize = 0;
    while at < total {
        n += new_size(src, at);
        at = sheet::next_place(src, at);
    }
    4 * n
}

// The new sheet at the front of an output that has room for it, block after block.
fn write(src: &[u8], output: &mut [u8])
    requires { Room src.now output.old }
    ensures { (x : Sheet) → gated src.now ≡ answer x → output.new ≡ encode (translated x) ++ drop (length (encode (translated x))) output.old }
{
    let total = src.len() / 4;
    let beam = sheet_values::beam_of(src);
    let wavelength_nm = beam.wavelength_nm;
    let mut at: usize = 0;
    let mut to: usize = 0;
    while at < total {
        to = put_block(src, at, wavelength_nm, to, output);
        at = sheet::next_place(src, at);
    }
}

// An edition 1 sheet for a sheet of either edition: each kind 6 becomes a LAYER with the index computed at
// the BEAM's wavelength and k +0, OPEN's payload is 1, all else is unchanged. It is written to the front of
// output, whose bytes past it keep what they held. Refusals: 4, 5, 6, 12 with the word of the first kind 7,
// then 8 for an output that is too short; each leaves the output untouched.
pub fn to_edition_1(src: &[u8], output: &mut [u8]) -> Result<usize, Refusal>
    ensures { record { result = outcome result; output = output.new } ≡ to_edition_1 src.now output.old }
{
    sheet_untuned::without_tuning(src)?;
    let length = new_length(src);
    if output.len() < length {
        return Err(Refusal::TooShort);
    }
    write(src, output);
    Ok(length)
}
