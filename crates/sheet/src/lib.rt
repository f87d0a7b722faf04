// Sheets of document 01, section 1, and of document 02, slips 3 and 5: the reader of their words, and the grammar.
#![tactic(auto)]

ghost use Rattle.std.specs.Prelude.{◌≡◌, true, suc, ◌+◌, ◌/◌, ◌≤◌, ◌<◌, length};
ghost use Rattle.std.specs.Float.{binary64};
ghost use Rattle.std.specs.Float.Ieee.{of_bits};
ghost use Rattle.sheet.specs.Words.{big_endian, word as word_of, kind, float};
ghost use Rattle.sheet.specs.Read as Read;
ghost use Rattle.sheet.specs.Read.{grammar};
ghost use Rattle.sheet.specs.Internal.{floats_at, stands_whole, plain_floats, standing_of, most_of, most_cauchy, fewer, run_of, counted, place_after, next_place, place_on, layer_follows, layer_run, layers_on, onto, begin, place};
ghost use Rattle.refusal.specs.Outcome.{outcome};

use refusal::Refusal;

// ---- words

// The sheet's bytes together with the word that is reached (01: a reader).
#[derive(Drop)]
pub struct Reader<'a> {
    pub src: &'a [u8],
    pub at: usize,
}

// Four bytes as one number, high byte first.
fn big_endian(a: u8, b: u8, c: u8, d: u8) -> u32
    ensures { result ≡ big_endian a b c d }
{
    a as u32 * 0x100_0000 + b as u32 * 0x1_0000 + c as u32 * 0x100 + d as u32
}

// The word at a place, counted from 0; past the last word it is 0.
fn word_at(src: &[u8], at: usize) -> u32
    ensures { result ≡ word_of src.now at }
{
    if at < src.len() / 4 {
        let i = 4 * at;
        big_endian(src[i], src[i + 1], src[i + 2], src[i + 3])
    } else {
        0
    }
}

// The top four bits of a byte.
fn high_half(b: u8) -> u32
    ensures { result ≡ b / 16 }
{
    b as u32 / 16
}

// The kind of the word at a place, which stands in its first byte; past the last word it is 0.
pub fn kind_at(src: &[u8], at: usize) -> u32
    ensures { result ≡ kind (word_of src.now at) }
{
    if at < src.len() / 4 {
        high_half(src[4 * at])
    } else {
        0
    }
}

// How many floats follow a kind word.
fn floats_after(kind: u32) -> usize
    ensures { result ≡ Read.floats_after kind }
{
    if kind == 2 {
        return 3;
    }
    if kind == 3 {
        return 3;
    }
    if kind == 4 {
        return 3;
    }
    if kind == 6 {
        return 4;
    }
    if kind == 7 {
        return 1;
    }
    0
}

// The place after a block of a kind at a place, two raw words to a float.
fn place_after(at: usize, kind: u32) -> usize
    requires { at < 0x4000_0000_0000_0000 }
    ensures { result ≡ place_after at kind }
{
    // Most blocks are LAYERs, and what is foreseen is not waited for.
    if kind == 4 {
        return at + 7;
    }
    at + 2 * floats_after(kind) + 1
}

// The place after the block at a place; past the last word the place itself.
pub fn next_place(src: &[u8], at: usize) -> usize
    ensures { result ≡ next_place src.now at }
{
    if at >= src.len() / 4 {
        return at;
    }
    place_after(at, kind_at(src, at))
}

// A reader at a word.
pub fn new<'a>(src: &'a [u8], at: usize) -> Reader<'a>
    ensures { (result.src ≡ src.entry) × (result.at ≡ at) }
{
    Reader { src, at }
}

// The word that is reached.
pub fn word<'a>(r: Reader<'a>) -> u32
    ensures { result ≡ word_of r.entry.src.now r.entry.at }
{
    word_at(r.src, r.at)
}

// The reader after the block whose kind word is reached.
pub fn next<'a>(r: Reader<'a>) -> Reader<'a>
    ensures { (result.src ≡ r.entry.src) × (result.at ≡ next_place r.entry.src.now r.entry.at) }
{
    Reader {
        src: r.src,
        at: next_place(r.src, r.at),
    }
}

// The word at a place, by a reader.
pub fn word_from(src: &[u8], at: usize) -> u32
    ensures { result ≡ word_of src.now at }
{
    word(new(src, at))
}

// The kind word after the block at a place, by a reader.
pub fn word_after(src: &[u8], at: usize) -> u32
    ensures { result ≡ word_of src.now (next_place src.now at) }
{
    word(next(new(src, at)))
}

// The float in two raw words.
pub fn float_from(src: &[u8], at: usize) -> f64
    ensures { result ≡ of_bits binary64 (float src.now at) }
{
    if at < src.len() / 4 {
        ieee::from_words(word_from(src, at), word_from(src, at + 1))
    } else {
        0.0
    }
}

// The float in the two raw words at a place, both of which are there.
fn float_in(src: &[u8], at: usize) -> f64
    requires { at + 1 < length src.now / 4 }
    ensures { result ≡ of_bits binary64 (float src.now at) }
{
    let i = 4 * at;
    let high = big_endian(src[i], src[i + 1], src[i + 2], src[i + 3]);
    let low = big_endian(src[i + 4], src[i + 5], src[i + 6], src[i + 7]);
    ieee::from_words(high, low)
}

// Three floats. The second stands last: beside the first it would be read together with it, just after both were
// written one by one, and a processor waits for that.
#[derive(Drop)]
pub struct Floats {
    pub first: f64,
    pub third: f64,
    pub second: f64,
}

// Those after the kind word at a place, where not all of their words need be there.
fn floats_near_end(src: &[u8], at: usize) -> Floats
    requires { at < length src.now / 4 }
    ensures { result ≡ floats_at src.now at }
{
    Floats {
        first: float_from(src, at + 1),
        second: float_from(src, at + 3),
        third: float_from(src, at + 5),
    }
}

// Those after the kind word at a place; zero throughout past the last word.
pub fn floats_at(src: &[u8], at: usize) -> Floats
    ensures { result ≡ floats_at src.now at }
{
    let total = src.len() / 4;
    if at < total {
        if total - at < 7 {
            return floats_near_end(src, at);
        }
        return Floats {
            first: float_in(src, at + 1),
            second: float_in(src, at + 3),
            third: float_in(src, at + 5),
        };
    }
    Floats {
        first: 0.0,
        second: 0.0,
        third: 0.0,
    }
}

// Whether the whole of a block of a kind word stands at a place, so many words in all.
fn stands_whole(src: &[u8], at: usize, w: u32, size: usize) -> bool
    requires { 1 ≤ size }
    ensures { result ≡ stands_whole w size src.now at }
{
    let total = src.len() / 4;
    if at < total {
        if total - at >= size {
            return word_from(src, at) == w;
        }
    }
    false
}

// Whether that of a LAYER does, and its floats; zero throughout where it does not.
#[derive(Drop)]
pub struct PlainFloats {
    pub stands: bool,
    pub first: f64,
    pub third: f64,
    pub second: f64,
}

pub fn plain_floats(src: &[u8], at: usize) -> PlainFloats
    ensures { result ≡ plain_floats src.now at }
{
    if !stands_whole(src, at, 0x4000_0000, 7) {
        return PlainFloats {
            stands: false,
            first: 0.0,
            second: 0.0,
            third: 0.0,
        };
    }
    PlainFloats {
        stands: true,
        first: float_in(src, at + 1),
        second: float_in(src, at + 3),
        third: float_in(src, at + 5),
    }
}

// The same for a second caller: a compiler puts a function of this size in line where it has one caller alone, and LAYERs are
// read more often than anything else.
pub fn plain_floats_again(src: &[u8], at: usize) -> PlainFloats
    ensures { result ≡ plain_floats src.now at }
{
    if !stands_whole(src, at, 0x4000_0000, 7) {
        return PlainFloats {
            stands: false,
            first: 0.0,
            second: 0.0,
            third: 0.0,
        };
    }
    PlainFloats {
        stands: true,
        first: float_in(src, at + 1),
        second: float_in(src, at + 3),
        third: float_in(src, at + 5),
    }
}

// ---- grammar

// Where one stands between two blocks: before OPEN, before BEAM (the edition), among the blocks after it
// (the edition, SURFACEs so far, layers that may come), after a kind 7 (the edition, SURFACEs so far), after END.
#[derive(Clone, Copy)]
pub enum Standing {
    AtOpen,
    AtBeam(u32),
    Among(u32, u32, u32),
    AtSurface(u32, u32),
    Ended,
}

fn is_surface(done: u32, w: u32) -> bool
    ensures { result ≡ Read.is_surface done w }
{
    if w / 0x1000_0000 != 3 {
        return false;
    }
    if done >= 64 {
        return false;
    }
    w % 0x1000_0000 <= 15
}

// The kinds of a layer: LAYER, and in edition 2 kind 6.
fn layer_kind(edition: u32, kind: u32) -> bool
    ensures { result ≡ Read.layer_kind edition kind }
{
    if kind == 4 {
        return true;
    }
    if edition != 2 {
        return false;
    }
    kind == 6
}

fn is_layer(edition: u32, most: u32, w: u32) -> bool
    ensures { result ≡ Read.is_layer edition most w }
{
    if !layer_kind(edition, w / 0x1000_0000) {
        return false;
    }
    if most == 0 {
        return false;
    }
    w % 0x1000_0000 == 0
}

// Kind 7: in edition 2, before one of 64 SURFACEs.
fn is_tuning(edition: u32, done: u32, w: u32) -> bool
    ensures { result ≡ Read.is_tuning edition done w }
{
    edition == 2 && (w / 0x1000_0000 == 7 && (done < 64 && w % 0x1000_0000 == 0))
}

fn is_end(done: u32, w: u32) -> bool
    ensures { result ≡ Read.is_end done w }
{
    if w / 0x1000_0000 != 5 {
        return false;
    }
    w % 0x1000_0000 == done
}

// Whether a kind word may come there.
fn may(s: Standing, w: u32) -> bool
    ensures { result ≡ Read.may (standing_of s) w }
{
    match s {
        Standing::AtOpen => {
            if w == 0x1000_0001 {
                return true;
            }
            w == 0x1000_0002
        }
        Standing::AtBeam(_) => w == 0x2000_0000,
        Standing::Among(edition, done, most) => {
            if is_surface(done, w) {
                return true;
            }
            if is_layer(edition, most, w) {
                return true;
            }
            if is_tuning(edition, done, w) {
                return true;
            }
            is_end(done, w)
        }
        Standing::AtSurface(_, done) => is_surface(done, w),
        Standing::Ended => false,
    }
}

// How many layers may come after a SURFACE of this payload.
fn layers_after(payload: u32) -> u32
    ensures { result ≡ Read.layers_after payload }
{
    if payload / 2 == 5 { 16 } else { 0 }
}

// Where one stands after a kind word that may come.
fn after(s: Standing, w: u32) -> Standing
    requires { Read.may (standing_of s) w ≡ true }
    ensures { standing_of result ≡ Read.after (standing_of s) w }
{
    match s {
        Standing::AtOpen => Standing::AtBeam(w % 0x1000_0000),
        Standing::AtBeam(edition) => Standing::Among(edition, 0, 0),
        Standing::Among(edition, done, most) => {
            if w / 0x1000_0000 == 3 {
                return Standing::Among(edition, done + 1, layers_after(w % 0x1000_0000));
            }
            if w / 0x1000_0000 == 7 {
                return Standing::AtSurface(edition, done);
            }
            if w / 0x1000_0000 == 5 {
                return Standing::Ended;
            }
            Standing::Among(edition, done, most - 1)
        }
        Standing::AtSurface(edition, done) => {
            Standing::Among(edition, done + 1, layers_after(w % 0x1000_0000))
        }
        Standing::Ended => Standing::Ended,
    }
}

fn has_ended(s: Standing) -> bool
    ensures { result ≡ Read.may_end (standing_of s) }
{
    match s {
        Standing::AtOpen => false,
        Standing::AtBeam(_) => false,
        Standing::Among(_, _, _) => false,
        Standing::AtSurface(_, _) => false,
        Standing::Ended => true,
    }
}

// How many layers may come there.
fn most_of(s: Standing) -> u32
    ensures { result ≡ most_of (standing_of s) }
{
    match s {
        Standing::AtOpen => 0,
        Standing::AtBeam(_) => 0,
        Standing::Among(_, _, most) => most,
        Standing::AtSurface(_, _) => 0,
        Standing::Ended => 0,
    }
}

// How many kinds 6: in edition 2.
fn most_cauchy(s: Standing) -> u32
    ensures { result ≡ most_cauchy (standing_of s) }
{
    match s {
        Standing::AtOpen => 0,
        Standing::AtBeam(_) => 0,
        Standing::Among(edition, _, most) => {
            if edition == 2 {
                return most;
            }
            0
        }
        Standing::AtSurface(_, _) => 0,
        Standing::Ended => 0,
    }
}

// Where one stands after n of them.
fn fewer(s: Standing, n: u32) -> Standing
    requires { n ≤ most_of (standing_of s) }
    ensures { standing_of result ≡ fewer n (standing_of s) }
{
    match s {
        Standing::AtOpen => s,
        Standing::AtBeam(_) => s,
        Standing::Among(edition, done, most) => Standing::Among(edition, done, most - n),
        Standing::AtSurface(_, _) => s,
        Standing::Ended => s,
    }
}

// How many whole blocks of a kind word and of so many words stand one after the other from a place on, so many at the most.
fn run_of(src: &[u8], at: usize, w: u32, size: usize, most: u32) -> u32
    requires { (1 ≤ size) × (at ≤ length src.now / 4) }
    ensures { result ≡ run_of w size most src.now at }
{
    let mut place = at;
    for n in 0..most {
        if !stands_whole(src, place, w, size) {
            return n;
        }
        place = place + size;
    }
    most
}

// One more where the kind word is a SURFACE's.
fn counted(w: u32, n: u32) -> u32
    requires { n < 0xFFFF_FFFF }
    ensures { result ≡ counted w n }
{
    if w / 0x1000_0000 == 3 { n + 1 } else { n }
}

// The grammar over the whole sheet.
pub fn grammar(src: &[u8]) -> Result<u32, Refusal>
    ensures { outcome result ≡ grammar src.now }
{
    let total = src.len() / 4;
    let mut s = Standing::AtOpen;
    let mut at: usize = 0;
    let mut count: u32 = 0;
    while at < total {
        let w = word_from(src, at);
        if !may(s, w) {
            return Err(Refusal::Grammar(at));
        }
        let next = place_after(at, w / 0x1000_0000);
        if total < next {
            return Err(Refusal::Grammar(at));
        }
        count = counted(w, count);
        let t = after(s, w);
        // Most blocks are layers: LAYERs are passed over together, then kinds 6.
        let n = run_of(src, next, 0x4000_0000, 7, most_of(t));
        let u = fewer(t, n);
        let place = next + 7 * n as usize;
        let m = run_of(src, place, 0x6000_0000, 9, most_cauchy(u));
        s = fewer(u, m);
        at = place + 9 * m as usize;
    }
    if has_ended(s) {
        Ok(count)
    } else {
        Err(Refusal::Grammar(at))
    }
}

// ---- places

// The place n blocks on.
pub fn place_on(src: &[u8], at: usize, n: usize) -> usize
    ensures { result ≡ place_on src.now at n }
{
    let mut place = at;
    for _ in 0..n {
        place = next_place(src, place);
    }
    place
}

// How many layers stand directly after a block, and the place after them.
#[derive(Drop)]
pub struct LayerRun {
    pub count: usize,
    pub next: usize,
}

// Whether a layer stands directly after the block at a place: a reader steps over the block.
fn layer_follows(src: &[u8], at: usize) -> bool
    ensures { result ≡ layer_follows src.now at }
{
    layer_kind(2, word_after(src, at) / 0x1000_0000)
}

// Those after the block at a place: 16 at the most.
pub fn layers_on(src: &[u8], at: usize) -> LayerRun
    ensures { result ≡ layers_on src.now at }
{
    let mut place = next_place(src, at);
    if !layer_follows(src, at) {
        return LayerRun {
            count: 0,
            next: place,
        };
    }
    for n in 0..16 {
        if !layer_kind(2, kind_at(src, place)) {
            return LayerRun {
                count: n,
                next: place,
            };
        }
        place = next_place(src, place);
    }
    LayerRun {
        count: 16,
        next: place,
    }
}

// How many layers stand directly after the block at a place: 16 at the most.
pub fn layer_run(src: &[u8], at: usize) -> usize
    ensures { result ≡ layer_run 16 src.now at }
{
    let run = layers_on(src, at);
    run.count
}

// The SURFACE of the blocks from a place on: after the kind 7, if one is there.
pub fn onto(src: &[u8], at: usize) -> usize
    ensures { result ≡ onto src.now at }
{
    if kind_at(src, at) == 7 {
        return next_place(src, at);
    }
    at
}

// The place after a SURFACE and its layers.
pub fn after_layers(src: &[u8], at: usize) -> usize
    ensures { result ≡ place_on src.now at (suc (layer_run 16 src.now at)) }
{
    let run = layers_on(src, at);
    run.next
}

// Where the n-th SURFACE of a sheet in grammar begins, counted from 0, with the kind 7 before it.
pub fn begin_of(src: &[u8], n: u32) -> usize
    ensures { result ≡ begin src.now n }
{
    let mut at = place_on(src, 0, 2);
    for _ in 0..n {
        at = after_layers(src, onto(src, at));
    }
    at
}

// The place of the n-th SURFACE of a sheet in grammar, counted from 0.
pub fn place_of(src: &[u8], n: u32) -> usize
    ensures { result ≡ place src.now n }
{
    onto(src, begin_of(src, n))
}
