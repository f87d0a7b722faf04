// What an exported call returns, and what it leaves in the list that it was lent: refusals as one
// number, and answers by their numbers.
#![tactic(auto)]

ghost use Rattle.std.specs.Prelude.{◌≡◌, ◌++◌, ◌+◌, ◌%◌, ◌^◌, ◌≤◌, length, take, drop};
ghost use Rattle.c_call.specs.Call.{done, packed, reply, written};
ghost use Rattle.c_call.specs.Layout.{response_numbers, jones_numbers, mueller_numbers, rows, head, common, alone, both, entries, two_entries, evaluated, surface_answered};
ghost use Rattle.refusal.specs.Outcome.{number_of, place_of};

use polarization_mueller::{JonesMatrix, MuellerMatrix};
use refusal::Refusal;
use surface::Answers;
use thin_film_solver::CoatingResponse;

// A refusal as one number, for a place below 2^32.
pub fn packed(r: Refusal) -> u64
    ensures { result ≡ packed (number_of r) (place_of r % 2 ^ 32) }
{
    packed_at(r, r.place())
}

// The same at a place of the caller's.
pub fn packed_at(r: Refusal, place: usize) -> u64
    ensures { result ≡ packed (number_of r) (place % 2 ^ 32) }
{
    packed_number(r.number(), place)
}

// The same of any number.
pub fn packed_number(number: u32, place: usize) -> u64
    ensures { result ≡ packed number (place % 2 ^ 32) }
{
    number as u64 * 0x1_0000_0000 + place as u64 % 0x1_0000_0000
}

// Numbers at a place of a list that has room for them.
fn place(at: usize, numbers: &[f64], list: &mut [f64])
    requires { at + length numbers.now ≤ length list.old }
    ensures { list.new ≡ take at list.old ++ numbers.now ++ drop (at + length numbers.now) list.old }
{
    for (i, number) in numbers.iter().enumerate() {
        list[at + i] = *number;
    }
}

// Numbers at the front of a list that is long enough, and what is returned for them.
pub fn put(returned: u64, numbers: &[f64], list: &mut [f64]) -> u64
    ensures { done result list.new ≡ written (reply returned numbers.now) list.old }
{
    if list.len() < numbers.len() {
        return 0x8_0000_0000;
    }
    place(0, numbers, list);
    returned
}

// Two numbers, and what is returned for them.
pub fn put_both(returned: u64, a: f64, b: f64, list: &mut [f64]) -> u64
    ensures { done result list.new ≡ written (both returned a b) list.old }
{
    let numbers = [a, b];
    put(returned, &numbers, list)
}

// One number alone.
pub fn put_one(x: f64, list: &mut [f64]) -> u64
    ensures { done result list.new ≡ written (alone x) list.old }
{
    let numbers = [x];
    put(1, &numbers, list)
}

// ---- a response

fn response(r: CoatingResponse) -> [f64; 16]
    ensures { result ≡ response_numbers r }
{
    let rs = r.rs;
    let rp = r.rp;
    let ts = r.ts;
    let tp = r.tp;
    [
        rs.re,
        rs.im,
        rp.re,
        rp.im,
        ts.re,
        ts.im,
        tp.re,
        tp.im,
        r.reflectance_s,
        r.reflectance_p,
        r.transmittance_s,
        r.transmittance_p,
        r.phase_rs_rad,
        r.phase_rp_rad,
        r.absorptance_s,
        r.absorptance_p,
    ]
}

// The response by its numbers.
pub fn put_response(r: CoatingResponse, list: &mut [f64]) -> u64
    ensures { done result list.new ≡ written (evaluated r) list.old }
{
    let numbers = response(r);
    put(16, &numbers, list)
}

// ---- a surface's answers

fn jones(j: JonesMatrix) -> [f64; 8]
    ensures { result ≡ jones_numbers j }
{
    let m = j.m;
    let a = m[0];
    let b = m[1];
    let c = m[2];
    let d = m[3];
    [a.re, a.im, b.re, b.im, c.re, c.im, d.re, d.im]
}

// A Jones matrix by its numbers.
pub fn put_jones(j: JonesMatrix, list: &mut [f64]) -> u64
    ensures { done result list.new ≡ written (entries j) list.old }
{
    let numbers = jones(j);
    put(8, &numbers, list)
}

// Two Jones matrices, one after the other.
fn two_jones(j: JonesMatrix, k: JonesMatrix) -> [f64; 16]
    ensures { result ≡ jones_numbers j ++ jones_numbers k }
{
    let a = jones(j);
    let b = jones(k);
    [
        a[0], a[1], a[2], a[3], a[4], a[5], a[6], a[7], b[0], b[1], b[2], b[3], b[4], b[5], b[6],
        b[7],
    ]
}

// The same by their numbers.
pub fn put_two_jones(j: JonesMatrix, k: JonesMatrix, list: &mut [f64]) -> u64
    ensures { done result list.new ≡ written (two_entries j k) list.old }
{
    let numbers = two_jones(j, k);
    put(16, &numbers, list)
}

fn mueller(m: MuellerMatrix) -> [f64; 16]
    ensures { result ≡ mueller_numbers m }
{
    let e = m.m;
    [
        e[0], e[1], e[2], e[3], e[4], e[5], e[6], e[7], e[8], e[9], e[10], e[11], e[12], e[13],
        e[14], e[15],
    ]
}

// A Mueller matrix by its numbers, row after row.
pub fn put_mueller(m: MuellerMatrix, list: &mut [f64]) -> u64
    ensures { done result list.new ≡ written (rows m) list.old }
{
    let numbers = mueller(m);
    put(16, &numbers, list)
}

// Whether there is a coating, and the powers.
fn head(a: Answers) -> [f64; 5]
    ensures { result ≡ head a }
{
    let p = a.powers;
    if a.coated {
        [
            1.0,
            p.reflectance_s,
            p.reflectance_p,
            p.transmittance_s,
            p.transmittance_p,
        ]
    } else {
        [
            0.0,
            p.reflectance_s,
            p.reflectance_p,
            p.transmittance_s,
            p.transmittance_p,
        ]
    }
}

// What every surface has.
fn place_common(a: Answers, list: &mut [f64])
    requires { 53 ≤ length list.old }
    ensures { list.new ≡ common a ++ drop 53 list.old }
{
    let first = head(a);
    place(0, &first, list);
    let reflection = a.reflection;
    let transmission = a.transmission;
    let j = jones(reflection);
    place(5, &j, list);
    let k = jones(transmission);
    place(13, &k, list);
    let reflection_mueller = a.reflection_mueller;
    let transmission_mueller = a.transmission_mueller;
    let m = mueller(reflection_mueller);
    place(21, &m, list);
    let t = mueller(transmission_mueller);
    place(37, &t, list);
}

// The answers by their numbers; a bare surface has no response.
pub fn put_answers(a: Answers, list: &mut [f64]) -> u64
    ensures { done result list.new ≡ written (surface_answered a) list.old }
{
    if a.coated {
        if list.len() < 69 {
            return 0x8_0000_0000;
        }
        place_common(a, list);
        let numbers = response(a.response);
        place(53, &numbers, list);
        69
    } else {
        if list.len() < 53 {
            return 0x8_0000_0000;
        }
        place_common(a, list);
        53
    }
}
