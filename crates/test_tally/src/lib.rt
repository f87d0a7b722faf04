// A replay: its records, read one after the other; for each function how many answers agree with the recorded ones, and the
// first record that does not, whole.
#![tactic(auto)]

ghost use Rattle.std.specs.Prelude.{◌≡◌, true, ◌&&◌, length, replicate};
ghost use Rattle.test_records.specs.Words.{arguments, results, recorded};
ghost use Rattle.test_tally.specs.Counts.{fits, stands, clean, all_clean, one_more, tallied, Counted};

use test_records::Header;

// ---- records

// Reads the next record's words; whether they were all there.
#[tactic(auto, unfolding(crate::specs::Counts::fits))]
fn read_words(h: Header, body: &mut [u8]) -> bool
    ensures { result ≡ (result && fits h (length body.old)) }
{
    if h.args > body.len() / 8 {
        return false;
    }
    if h.results > body.len() / 8 - h.args {
        return false;
    }
    let n = 8 * (h.args + h.results);
    io::read_full(0, &mut body[..n]) == n
}

// The next record on standard input, whose words stand in body then; None at the end.
pub fn next_record(body: &mut [u8]) -> Option<Header>
    ensures { stands result (length body.old) ≡ true }
{
    let mut first = [0u8; 8];
    if io::read_full(0, &mut first) != 8 {
        return None;
    }
    let h = test_records::header_of(&first);
    if read_words(h, body) {
        return Some(h);
    }
    io::write_all(1, b"a record is cut off or too long\n");
    None
}

// ---- differences

fn print_words(label: &[u8], b: &[u8]) {
    io::write_all(1, label);
    for i in 0..b.len() / 8 {
        io::write_all(1, b" ");
        io::print_hex(1, test_records::word_at(b, i), 16);
    }
    io::write_all(1, b"\n");
}

fn print_got(w: &[u64; 256], n: usize) {
    io::write_all(1, b"  computed");
    for word in w.iter().take(n) {
        io::write_all(1, b" ");
        io::print_hex(1, *word, 16);
    }
    io::write_all(1, b"\n");
}

// A record that differs, whole.
fn print_record(f: usize, a: &[u8], want: &[u8], got: &[u64; 256], count: usize) {
    io::write_all(1, b"function ");
    io::print_decimal(1, f as u64);
    io::write_all(1, b" differs\n");
    print_words(b"  arguments", a);
    print_words(b"  recorded", want);
    print_got(got, count);
}

// Whether the first words of an answer are the recorded ones; if not, and if it is the first of its
// function, the record is printed.
fn compared(f: usize, a: &[u8], want: &[u8], got: &[u64; 256], count: usize, first: bool) -> bool
    ensures { result ≡ recorded got.now count want.now }
{
    if test_records::same(got, count, want) {
        return true;
    }
    if first {
        print_record(f, a, want, got, count);
    }
    false
}

// ---- counts

// One more answer of a function; there are fewer records than a count holds.
fn count(f: usize, counts: &mut [u32; 256])
    ensures { counts.new ≡ one_more f counts.old }
{
    if f < 256 {
        counts[f] = std::num::wrapping_add_u32(counts[f], 1);
    }
}

fn print_line(f: usize, agreed: u32, all: u32) {
    io::write_all(1, b"function ");
    io::print_decimal(1, f as u64);
    io::write_all(1, b": ");
    io::print_decimal(1, agreed as u64);
    io::write_all(1, b" of ");
    io::print_decimal(1, all as u64);
    io::write_all(1, b" agree\n");
}

// For each of 256 functions how many answers there were, and how many of them agreed.
#[derive(Drop)]
pub struct Tally {
    pub all: [u32; 256],
    pub agreed: [u32; 256],
}

impl Tally {
    // No answer yet.
    pub fn new() -> Tally
        ensures none { result.all ≡ replicate 256 0 }
        ensures none_agreed { result.agreed ≡ replicate 256 0 }
    {
        Tally {
            all: [0; 256],
            agreed: [0; 256],
        }
    }

    // Whether every answer of a function so far agreed.
    fn clean(&self, f: usize) -> bool
        ensures { result ≡ clean f self.now.all self.now.agreed }
    {
        f < 256 && self.all[f] == self.agreed[f]
    }

    // Compares the first n words of an answer to a record with those recorded, and counts it.
    pub fn add(&mut self, h: Header, body: &[u8], got: &[u64; 256], n: usize)
        ensures { (self.new.all, self.new.agreed) ≡ tallied h.function (recorded got.now n (results h body.now)) self.old.all self.old.agreed }
    {
        let f = h.function;
        let first = self.clean(f);
        let a = test_records::arguments(h, body);
        let want = test_records::results(h, body);
        let same = compared(f, a, want, got, n, first);
        count(f, &mut self.all);
        if same {
            count(f, &mut self.agreed);
        }
    }

    // Prints a line for each function that was called; whether every answer agreed.
    pub fn print(&self) -> bool
        ensures { result ≡ all_clean 256 self.now.all self.now.agreed }
    {
        let mut every = true;
        for f in 0..256 {
            if self.all[f] > 0 {
                print_line(f, self.agreed[f], self.all[f]);
            }
            every &= self.clean(f);
        }
        every
    }
}

// ---- a whole replay

// What a replaying program answers with: words of an answer are written, and how many they are is returned.
pub trait Functions {
    fn answer(&self, f: usize, a: &[u8], out: &mut [u64; 256]) -> usize;
}

// Answers the records on standard input, whose words fit into body; how many answers agree.
pub fn replay<F: Functions>(body: &mut [u8], functions: &F) -> Tally
    ensures counted { Counted result.all result.agreed }
    ensures kept { length body.new ≡ length body.old }
{
    let mut tally = Tally::new();
    for _done in 0..0xffff_ffffu32 {
        let Some(h) = next_record(body) else {
            break;
        };
        let mut got = [0u64; 256];
        let n = functions.answer(h.function, test_records::arguments(h, body), &mut got);
        tally.add(h, body, &got, n);
    }
    tally
}
