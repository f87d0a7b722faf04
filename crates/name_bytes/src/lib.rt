// Byte strings: the part without the blank bytes at both ends, comparing, searching, ASCII.
#![tactic(auto)]

ghost use Rattle.std.specs.Prelude.{◌≡◌};
ghost use Rattle.name_bytes.specs.Trim.{blank, prefix, kept, span, part, handed, span_of};
ghost use Rattle.name_bytes.specs.Search.{begins, is, contains};
ghost use Rattle.name_bytes.specs.Ascii.{upper_byte, first_over};

// ---- trim

// A part of a name: its place and its length.
#[derive(Drop)]
pub struct Span {
    pub place: usize,
    pub len: usize,
}

// 0x09 to 0x0D and 0x20.
fn blank(b: u8) -> bool
    ensures { result ≡ blank b }
{
    if b < 9 {
        false
    } else if b <= 13 {
        true
    } else {
        b == 32
    }
}

// How many blank bytes stand at the beginning.
fn leading(s: &[u8]) -> usize
    ensures { result ≡ prefix blank s.now }
{
    for i in 0..s.len() {
        if !blank(s[i]) {
            return i;
        }
    }
    s.len()
}

// How many bytes are left without the blank ones at the end.
fn kept(s: &[u8]) -> usize
    ensures { result ≡ kept s.now }
{
    for i in (0..s.len()).rev() {
        if !blank(s[i]) {
            return i + 1;
        }
    }
    0
}

// Where the trimmed part of a name lies in it.
pub fn trim_span(name: &[u8]) -> Span
    ensures { result ≡ span name.now }
{
    let a = leading(name);
    if a < name.len() {
        let len = kept(&name[a..]);
        Span { place: a, len }
    } else {
        Span { place: 0, len: 0 }
    }
}

// The trimmed part of a name: blank bytes go from both ends.
pub fn trimmed(name: &[u8]) -> &[u8]
    ensures { (result.ref_ptr, result.now) ≡ part name.entry.ref_ptr name.now }
{
    let s = trim_span(name);
    let a = s.place;
    let e = a + s.len;
    &name[a..e]
}

// Where the trimmed part of a name begins in it.
fn place(name: &[u8]) -> usize
    ensures { result ≡ (span name.now).place }
{
    let s = trim_span(name);
    s.place
}

// A part of a lent name, with its place in it.
#[derive(Drop)]
pub struct Part<'a> {
    pub bytes: &'a [u8],
    pub place: usize,
}

// The trimmed part of the caller's name, with its place in it.
pub fn trim<'a>(name: &'a [u8]) -> Part<'a>
    ensures { ((result.bytes.ref_ptr, result.bytes.now), result.place) ≡ handed name.entry.ref_ptr name.now }
{
    Part {
        bytes: trimmed(name),
        place: place(name),
    }
}

// Where a part lies, and how long it is.
fn span_of(bytes: &[u8], place: usize) -> Span
    ensures { result ≡ span_of bytes.now place }
{
    Span {
        place,
        len: bytes.len(),
    }
}

// The numbers of a part.
fn numbers<'a>(part: Part<'a>) -> Span
    ensures { result ≡ span_of part.entry.bytes.now part.entry.place }
{
    span_of(part.bytes, part.place)
}

// Those of the trimmed part of a name, for callers who are handed no reference.
pub fn trim_numbers(name: &[u8]) -> Span
    ensures { result ≡ span name.now }
{
    numbers(trim(name))
}

// ---- compare and search

// p stands at the beginning of s.
fn begins(s: &[u8], p: &[u8]) -> bool
    ensures { result ≡ begins s.now p.now }
{
    for i in 0..p.len() {
        if i >= s.len() {
            return false;
        }
        if s[i] != p[i] {
            return false;
        }
    }
    true
}

// s is p.
pub fn is(s: &[u8], p: &[u8]) -> bool
    ensures { result ≡ is s.now p.now }
{
    if s.len() == p.len() {
        begins(s, p)
    } else {
        false
    }
}

// p stands somewhere in s.
pub fn contains(s: &[u8], p: &[u8]) -> bool
    ensures { result ≡ contains s.now p.now }
{
    for k in 0..s.len() {
        if begins(&s[k..], p) {
            return true;
        }
    }
    begins(&s[s.len()..], p)
}

// ---- ASCII

// a to z in upper case.
pub fn upper_byte(b: u8) -> u8
    ensures { result ≡ upper_byte b }
{
    if b < 97 {
        b
    } else if b <= 122 {
        b - 32
    } else {
        b
    }
}

// The place of the first byte over 127; the length where there is none.
pub fn first_over(s: &[u8]) -> usize
    ensures { result ≡ first_over s.now }
{
    for i in 0..s.len() {
        if s[i] > 127 {
            return i;
        }
    }
    s.len()
}
