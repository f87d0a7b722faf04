// The machine, one symbol at a time.
ghost use Rattle.std.specs.Prelude.{◌≡◌, ℕ, ◌≤◌, ◌<◌};
ghost use Rattle.thin_film_grammar.specs.Grammar.{kind, blank, dig, let', open', close, hat};
ghost use Rattle.thin_film_reader.specs.InternalMachine.{view, small_step, spaced_in, rests_in, takes_letter, takes_power, halted_in, whole_in, Low, Stepped, Lettered, at_phase, stopped, begin};

// Stop: no text of the grammar goes on so. Ready: an item may follow. Atom: a power may follow too.
// Number1, Number2: after the digits of a multiplier, Gap: and a space. Caret: after ^. Power1,
// Power2: after the digits of a power.
#[derive(Clone, Copy)]
pub enum Phase {
    Stop,
    Ready,
    Atom,
    Number1,
    Number2,
    Gap,
    Caret,
    Power1,
    Power2,
}

// How many brackets are open, whether anything stands behind the last of them, and the number of the
// phases that have one.
#[derive(Clone, Copy)]
pub struct Machine {
    pub phase: Phase,
    pub number: u8,
    pub any: bool,
    pub depth: usize,
}

pub(crate) fn begin() -> Machine
    ensures { result ≡ begin }
{
    Machine {
        phase: Phase::Ready,
        number: 0,
        any: false,
        depth: 0,
    }
}

fn stopped() -> Machine
    ensures { result ≡ stopped }
{
    Machine {
        phase: Phase::Stop,
        number: 0,
        any: false,
        depth: 0,
    }
}

fn spaced(p: Phase) -> Phase
    ensures { result ≡ spaced_in p }
{
    match p {
        Phase::Stop => Phase::Stop,
        Phase::Ready => Phase::Ready,
        Phase::Atom => Phase::Atom,
        Phase::Number1 => Phase::Gap,
        Phase::Number2 => Phase::Gap,
        Phase::Gap => Phase::Gap,
        Phase::Caret => Phase::Caret,
        Phase::Power1 => Phase::Ready,
        Phase::Power2 => Phase::Ready,
    }
}

// An item is complete.
fn rests(p: Phase) -> bool
    ensures { result ≡ rests_in p }
{
    match p {
        Phase::Stop => false,
        Phase::Ready => true,
        Phase::Atom => true,
        Phase::Number1 => false,
        Phase::Number2 => false,
        Phase::Gap => false,
        Phase::Caret => false,
        Phase::Power1 => true,
        Phase::Power2 => true,
    }
}

// After a space.
fn space(m: Machine) -> Machine
    requires { Low m }
    ensures { Stepped m blank result }
{
    let p = m.phase;
    Machine {
        phase: spaced(p),
        number: m.number,
        any: m.any,
        depth: m.depth,
    }
}

// A letter may follow.
fn takes_letter(p: Phase) -> bool
    ensures { result ≡ takes_letter p }
{
    match p {
        Phase::Stop => false,
        Phase::Ready => true,
        Phase::Atom => true,
        Phase::Number1 => true,
        Phase::Number2 => true,
        Phase::Gap => true,
        Phase::Caret => false,
        Phase::Power1 => true,
        Phase::Power2 => true,
    }
}

// A power may follow.
fn takes_power(p: Phase) -> bool
    ensures { result ≡ takes_power p }
{
    match p {
        Phase::Stop => false,
        Phase::Ready => false,
        Phase::Atom => true,
        Phase::Number1 => false,
        Phase::Number2 => false,
        Phase::Gap => false,
        Phase::Caret => false,
        Phase::Power1 => false,
        Phase::Power2 => false,
    }
}

// After a letter.
fn letter(m: Machine) -> Machine
    requires { Low m }
    ensures { Lettered m result }
{
    let p = m.phase;
    if !takes_letter(p) {
        return stopped();
    }
    Machine {
        phase: Phase::Atom,
        number: 0,
        any: true,
        depth: m.depth,
    }
}

// After ^.
fn caret(m: Machine) -> Machine
    requires { Low m }
    ensures { Stepped m hat result }
{
    let p = m.phase;
    if !takes_power(p) {
        return stopped();
    }
    Machine {
        phase: Phase::Caret,
        number: 0,
        any: m.any,
        depth: m.depth,
    }
}

// After (.
fn open(m: Machine) -> Machine
    requires { Low m }
    ensures { Stepped m open' result }
{
    let p = m.phase;
    if !rests(p) {
        return stopped();
    }
    if m.depth >= 4 {
        return stopped();
    }
    Machine {
        phase: Phase::Ready,
        number: 0,
        any: false,
        depth: m.depth + 1,
    }
}

// After ).
fn close(m: Machine) -> Machine
    requires { Low m }
    ensures { Stepped m close result }
{
    let p = m.phase;
    if !rests(p) {
        return stopped();
    }
    if m.depth == 0 {
        return stopped();
    }
    if !m.any {
        return stopped();
    }
    Machine {
        phase: Phase::Atom,
        number: 0,
        any: true,
        depth: m.depth - 1,
    }
}

// After the first digit of a multiplier.
fn first_digit(m: Machine, a: u8) -> Machine
    requires { Low m × (a ≤ 9) }
    ensures { Stepped (at_phase m Phase.Ready) (dig a) result }
{
    if a == 0 {
        return stopped();
    }
    Machine {
        phase: Phase::Number1,
        number: a,
        any: m.any,
        depth: m.depth,
    }
}

// After the first digit of a power.
fn first_power(m: Machine, a: u8) -> Machine
    requires { Low m × (a ≤ 9) }
    ensures { Stepped (at_phase m Phase.Caret) (dig a) result }
{
    if a == 0 {
        return stopped();
    }
    Machine {
        phase: Phase::Power1,
        number: a,
        any: m.any,
        depth: m.depth,
    }
}

// After the second digit of a power.
fn second_power(m: Machine, a: u8) -> Machine
    requires { Low m × (m.number ≤ 9) × (a ≤ 9) }
    ensures { Stepped (at_phase m Phase.Power1) (dig a) result }
{
    let power = 10 * m.number + a;
    if power > 31 {
        return stopped();
    }
    Machine {
        phase: Phase::Power2,
        number: 0,
        any: m.any,
        depth: m.depth,
    }
}

// After the second digit of a multiplier.
fn second_digit(m: Machine, a: u8) -> Machine
    requires { Low m × (m.number ≤ 9) × (a ≤ 9) }
    ensures { Stepped (at_phase m Phase.Number1) (dig a) result }
{
    Machine {
        phase: Phase::Number2,
        number: 10 * m.number + a,
        any: m.any,
        depth: m.depth,
    }
}

// After a digit.
fn digit(m: Machine, a: u8) -> Machine
    requires { Low m × (a ≤ 9) }
    ensures { Stepped m (dig a) result }
{
    let p = m.phase;
    match p {
        Phase::Stop => stopped(),
        Phase::Ready => first_digit(m, a),
        Phase::Atom => first_digit(m, a),
        Phase::Number1 => second_digit(m, a),
        Phase::Number2 => stopped(),
        Phase::Gap => stopped(),
        Phase::Caret => first_power(m, a),
        Phase::Power1 => second_power(m, a),
        Phase::Power2 => stopped(),
    }
}

// After a byte.
pub(crate) fn step(m: Machine, b: u8) -> Machine
    requires { Low m }
    ensures { Stepped m (kind b) result }
{
    if b == b' ' {
        return space(m);
    }
    if b == b'H' {
        return letter(m);
    }
    if b == b'L' {
        return letter(m);
    }
    if b == b'M' {
        return letter(m);
    }
    if b == b'(' {
        return open(m);
    }
    if b == b')' {
        return close(m);
    }
    if b == b'^' {
        return caret(m);
    }
    if b < b'0' {
        return stopped();
    }
    if b > b'9' {
        return stopped();
    }
    digit(m, b - b'0')
}

// No text of the grammar goes on so.
pub(crate) fn halted(m: Machine) -> bool
    ensures { result ≡ halted_in m.phase }
{
    let p = m.phase;
    match p {
        Phase::Stop => true,
        Phase::Ready => false,
        Phase::Atom => false,
        Phase::Number1 => false,
        Phase::Number2 => false,
        Phase::Gap => false,
        Phase::Caret => false,
        Phase::Power1 => false,
        Phase::Power2 => false,
    }
}

// A text of the grammar may end so.
pub(crate) fn whole(m: Machine) -> bool
    ensures { result ≡ whole_in m }
{
    let p = m.phase;
    if m.depth != 0 {
        return false;
    }
    if !m.any {
        return false;
    }
    rests(p)
}
