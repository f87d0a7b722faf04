// The films so far.
ghost use Rattle.std.specs.Prelude.{◌≡◌, ◌+◌, ◌*◌, ◌-◌, ◌≤◌, ◌<◌};
ghost use Rattle.thin_film_grammar.specs.Grammar.{kind, dig, let'};
ghost use Rattle.thin_film_reader.specs.InternalMachine.{Low};
ghost use Rattle.thin_film_reader.specs.InternalFilms.{no_films, over, pushed, repeated, added, marked, closed, phase_of, numbered, multiplier_in, copies_in, taken, Safe, Goes};

use super::machine::{Machine, Phase};
use thin_film_grammar::Film;

// The first count of the places hold films. A count of 65 says that there are more than 64. The last
// item is unit films long before its power, and opened has the count at each open bracket.
#[derive(Clone, Copy)]
pub struct Films {
    pub items: [Film; 64],
    pub count: usize,
    pub unit: usize,
    pub opened: [usize; 4],
}

pub(crate) fn no_films() -> Films
    ensures { result ≡ no_films }
{
    let items = [Film {
        letter: 0,
        multiplier: 0,
    }; 64];
    let opened = [0usize; 4];
    Films {
        items,
        count: 0,
        unit: 0,
        opened,
    }
}

// More than 64 films.
fn over(f: Films) -> Films
    ensures { result ≡ over f }
{
    let items = f.items;
    let opened = f.opened;
    Films {
        items,
        count: 65,
        unit: f.unit,
        opened,
    }
}

// One film more.
fn push(f: Films, film: Film) -> Films
    ensures { result ≡ pushed f film }
{
    let count = f.count;
    if count >= 64 {
        return over(f);
    }
    let mut items = f.items;
    let opened = f.opened;
    items[count] = film;
    Films {
        items,
        count: count + 1,
        unit: f.unit,
        opened,
    }
}

// More films, each as the one that is an item's length before it.
fn repeat(f: Films, more: usize) -> Films
    requires { f.unit ≤ f.count }
    ensures { result ≡ repeated f more }
{
    let mut films = f;
    for _ in 0..more {
        let count = films.count;
        if count >= 64 {
            return over(films);
        }
        let items = films.items;
        let from = count - films.unit;
        films = push(films, items[from]);
    }
    films
}

// A letter's film.
fn add(f: Films, film: Film) -> Films
    ensures { result ≡ added f film }
{
    let g = push(f, film);
    let items = g.items;
    let opened = g.opened;
    Films {
        items,
        count: g.count,
        unit: 1,
        opened,
    }
}

// A bracket opens inside depth others.
fn open(f: Films, depth: usize) -> Films
    requires { depth < 4 }
    ensures { result ≡ marked f depth }
{
    let items = f.items;
    let mut opened = f.opened;
    opened[depth] = f.count;
    Films {
        items,
        count: f.count,
        unit: f.unit,
        opened,
    }
}

// The last of depth brackets closes.
fn close(f: Films, depth: usize) -> Films
    requires { Safe f × (0 < depth) × (depth ≤ 4) }
    ensures { result ≡ closed f depth }
{
    let items = f.items;
    let opened = f.opened;
    let last = depth - 1;
    Films {
        items,
        count: f.count,
        unit: f.count - opened[last],
        opened,
    }
}

// A multiplier stands before the next letter.
fn numbered(p: Phase) -> bool
    ensures { result ≡ numbered p }
{
    match p {
        Phase::Stop => false,
        Phase::Ready => false,
        Phase::Atom => false,
        Phase::Number1 => true,
        Phase::Number2 => true,
        Phase::Gap => true,
        Phase::Caret => false,
        Phase::Power1 => false,
        Phase::Power2 => false,
    }
}

// The next letter's multiplier; 0 where none is written.
fn multiplier(m: Machine) -> u8
    ensures { result ≡ multiplier_in (phase_of m.phase m.number) }
{
    let p = m.phase;
    if !numbered(p) {
        return 0;
    }
    m.number
}

fn wide(x: u8) -> usize
    ensures { result ≡ x }
{
    x as usize
}

fn one_less(a: u8) -> usize
    ensures { result ≡ a - 1 }
{
    if a == 0 {
        return 0;
    }
    wide(a) - 1
}

// How many copies of the last item a digit adds: a power's first digit a makes a of one, and its
// second makes 10 n + a of n.
fn copies(m: Machine, a: u8) -> usize
    ensures { result ≡ copies_in (phase_of m.phase m.number) a }
{
    let p = m.phase;
    match p {
        Phase::Stop => 0,
        Phase::Ready => 0,
        Phase::Atom => 0,
        Phase::Number1 => 0,
        Phase::Number2 => 0,
        Phase::Gap => 0,
        Phase::Caret => one_less(a),
        Phase::Power1 => 9 * wide(m.number) + wide(a),
        Phase::Power2 => 0,
    }
}

fn digit(f: Films, m: Machine, a: u8) -> Films
    requires { Safe f × Low m × (a ≤ 9) }
    ensures { result ≡ taken f (phase_of m.phase m.number) m.depth (dig a) }
{
    repeat(f, copies(m, a) * f.unit)
}

fn letter(f: Films, m: Machine, letter: u8) -> Films
    ensures { result ≡ taken f (phase_of m.phase m.number) m.depth (let' letter) }
{
    add(
        f,
        Film {
            letter,
            multiplier: multiplier(m),
        },
    )
}

// After a byte that does not stop the machine.
pub(crate) fn take(f: Films, m: Machine, b: u8) -> Films
    requires { Safe f × Goes m (kind b) }
    ensures { result ≡ taken f (phase_of m.phase m.number) m.depth (kind b) }
{
    if b == b'H' {
        return letter(f, m, 0);
    }
    if b == b'L' {
        return letter(f, m, 1);
    }
    if b == b'M' {
        return letter(f, m, 2);
    }
    if b == b'(' {
        return open(f, m.depth);
    }
    if b == b')' {
        return close(f, m.depth);
    }
    if b < b'0' {
        return f;
    }
    if b > b'9' {
        return f;
    }
    digit(f, m, b - b'0')
}
