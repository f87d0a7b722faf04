// What the program `train` prints of a sheet (document 01, 'Known answers'), written to a lent buffer.
#![tactic(auto)]

ghost use Rattle.std.specs.Prelude.{◌≡◌, ◌++◌, ◌+◌, ◌≤◌, ◌<◌, length, drop};
ghost use Rattle.refusal.specs.Outcome.{answer, outcome};
ghost use Rattle.sheet.specs.Sheet.{Sheet};
ghost use Rattle.train_steps.specs.Train.{fresh};
ghost use Rattle.sheet_surfaces.specs.Surfaces.{nth_surface};
ghost use Rattle.train_text.specs.Text as Text;
ghost use Rattle.train_text.specs.Page.{Appended, reflects, RunOf};

use refusal::Refusal;

// ---- numbers as text

// The pattern of a float; every NaN has the same. No power of a sheet is a NaN.
fn pattern(x: f64) -> u64
    ensures { result ≡ Text.pattern x }
{
    if x == x {
        f64::to_bits(x)
    } else {
        0x7ff8_0000_0000_0000
    }
}

fn hex_digit(d: u64) -> u8
    requires { d < 16 }
    ensures { result ≡ Text.hex_digit d }
{
    if d < 10 { 48 + d as u8 } else { 55 + d as u8 }
}

// The 16 digits of a pattern, upper case.
fn hex(w: u64) -> [u8; 16]
    ensures { result ≡ Text.hex 16 w }
{
    let mut text = [48u8; 16];
    let mut rest = w;
    for i in (0..16).rev() {
        text[i] = hex_digit(rest % 16);
        rest /= 16;
    }
    text
}

// The digits of a number, from a place on.
#[derive(Clone, Copy)]
struct Digits {
    digits: [u8; 20],
    from: usize,
}

fn decimal(n: u64) -> Digits
    ensures { (drop result.from result.digits ≡ Text.decimal n) × ((result.from ≤ 20) × (length result.digits ≡ 20)) }
{
    let mut digits = [48u8; 20];
    let mut rest = n;
    let mut i = 19;
    while rest > 9 {
        digits[i] = 48 + (rest % 10) as u8;
        rest /= 10;
        i -= 1;
    }
    digits[i] = 48 + rest as u8;
    Digits { digits, from: i }
}

// ---- lines on a page

// Bytes behind the first at bytes; how many there are then.
fn append(page: &mut [u8], at: usize, bytes: &[u8]) -> usize
    requires { at + length bytes.now ≤ length page.old }
    ensures { Appended page.old at bytes.now result page.new }
{
    for (i, b) in bytes.iter().enumerate() {
        page[at + i] = *b;
    }
    at + bytes.len()
}

fn append_bits(page: &mut [u8], at: usize, x: f64) -> usize
    requires { at + 16 ≤ length page.old }
    ensures { Appended page.old at (Text.bits x) result page.new × (result ≡ at + 16) }
{
    let text = hex(pattern(x));
    append(page, at, &text)
}

fn append_decimal(page: &mut [u8], at: usize, n: u64) -> usize
    requires { at + 20 ≤ length page.old }
    ensures { Appended page.old at (Text.decimal n) result page.new × (result ≤ at + 20) }
{
    let d = decimal(n);
    let digits = d.digits;
    let from = d.from;
    append(page, at, &digits[from..])
}

fn append_letter(page: &mut [u8], at: usize, reflected: bool) -> usize
    requires { at + 3 ≤ length page.old }
    ensures { Appended page.old at (Text.letter reflected) result page.new × (result ≡ at + 3) }
{
    if reflected {
        append(page, at, b" R ")
    } else {
        append(page, at, b" T ")
    }
}

fn surface_line(page: &mut [u8], at: usize, number: u64, reflected: bool, s: f64, p: f64) -> usize
    requires { at + 57 ≤ length page.old }
    ensures { Appended page.old at (Text.surface_line number reflected s p) result page.new × (result ≤ at + 57) }
{
    let digits = append_decimal(page, at, number);
    let letter = append_letter(page, digits, reflected);
    let first = append_bits(page, letter, s);
    let space = append(page, first, b" ");
    let second = append_bits(page, space, p);
    append(page, second, b"\n")
}

fn sum_line(page: &mut [u8], at: usize, s: f64, p: f64) -> usize
    requires { at + 21 ≤ length page.old }
    ensures { Appended page.old at (Text.sum_line s p) result page.new × (result ≤ length page.old) }
{
    let word = append(page, at, b"sum ");
    let sum = append_bits(page, word, train_steps::sum(s, p));
    append(page, sum, b"\n")
}

fn refused_line(page: &mut [u8], number: u64, place: u64) -> usize
    requires { 50 ≤ length page.old }
    ensures { Appended page.old 0 (Text.refused_line number place) result page.new × (result ≤ length page.old) }
{
    let word = append(page, 0, b"refused ");
    let first = append_decimal(page, word, number);
    let space = append(page, first, b" ");
    let second = append_decimal(page, space, place);
    append(page, second, b"\n")
}

// ---- the text of a sheet

// Whether the i-th surface follows the reflected light.
fn reflects(src: &[u8], i: u32) -> bool
    ensures { result ≡ reflects (nth_surface src.now i) }
{
    match sheet_surfaces::nth_surface(src, i) {
        Ok(y) => {
            let surface = y.surface;
            surface.reflected
        }
        Err(_) => false,
    }
}

// A line for each of count surfaces, with the powers that a run wrote, and the sum's.
fn lines(
    src: &[u8],
    first_s: f64,
    first_p: f64,
    count: usize,
    list: &[f64; 128],
    page: &mut [u8],
) -> usize
    requires { (count ≤ 64) × (4096 ≤ length page.old) }
    ensures { ((x : Sheet) → RunOf src.now x first_s first_p count list.now → Appended page.old 0 (Text.text (answer x)) result page.new) × (result ≤ length page.old) }
{
    let mut s = first_s;
    let mut p = first_p;
    let mut at = 0;
    for i in 0..count {
        s = list[2 * i];
        p = list[2 * i + 1];
        at = surface_line(page, at, i as u64 + 1, reflects(src, i as u32), s, p);
    }
    sum_line(page, at, s, p)
}

// The text of a sheet whose run wrote a list.
fn admitted(src: &[u8], count: usize, list: &[f64; 128], page: &mut [u8]) -> usize
    requires { (count ≤ 64) × (4096 ≤ length page.old) }
    ensures { ((x : Sheet) → RunOf src.now x (fresh x).s (fresh x).p count list.now → Appended page.old 0 (Text.text (answer x)) result page.new) × (result ≤ length page.old) }
{
    match train_steps::start(src) {
        Ok(state) => lines(src, state.s, state.p, count, list, page),
        Err(r) => refused_line(page, r.number() as u64, r.place() as u64),
    }
}

fn write_text(src: &[u8], page: &mut [u8]) -> usize
    requires { 4096 ≤ length page.old }
    ensures { Appended page.old 0 (Text.train_text src.now) result page.new × (result ≤ length page.old) }
{
    let mut list = [0.0f64; 128];
    match train_steps::run(src, &mut list) {
        Ok(count) => admitted(src, count as usize, &list, page),
        Err(r) => refused_line(page, r.number() as u64, r.place() as u64),
    }
}

// Bytes at the front of a buffer that has room for them.
fn copy(bytes: &[u8], buffer: &mut [u8])
    requires { length bytes.now ≤ length buffer.old }
    ensures { buffer.new ≡ bytes.now ++ drop (length bytes.now) buffer.old }
{
    for (i, b) in bytes.iter().enumerate() {
        buffer[i] = *b;
    }
}

// What `train` prints of a sheet, at the front of a buffer. A buffer that is too short is refused with
// 8 and left as it is; 4096 bytes are enough for every sheet.
pub fn train_text(src: &[u8], buffer: &mut [u8]) -> Result<usize, Refusal>
    ensures { record { result = outcome result; buffer = buffer.new } ≡ Text.written (Text.train_text src.now) buffer.old }
{
    let mut page = [0u8; 4096];
    let n = write_text(src, &mut page);
    if buffer.len() < n {
        return Err(Refusal::TooShort);
    }
    copy(&page[..n], buffer);
    Ok(n)
}
