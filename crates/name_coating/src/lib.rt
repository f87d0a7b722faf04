// The names of coatings, on bytes: the coating that a name stands for, and the name of a coating.
#![tactic(auto)]

ghost use Rattle.std.specs.Prelude.{◌≡◌, ◌++◌, ◌-◌, ◌≤◌, length, replicate};
ghost use Rattle.refusal.specs.Outcome.{outcome};
ghost use Rattle.thin_film.specs.Coating.{text};
ghost use Rattle.name_coating.specs.Name.{upper, names_none, names_mgf2, names_bbar, names_mirror, names_ar, coating_of, from_format_name, format_name};

use refusal::Refusal;
use thin_film::{SurfaceCoating, Text};

// An upper-case name: the first len bytes.
#[derive(Clone, Copy)]
struct Clean {
    bytes: [u8; 32],
    len: usize,
}

// An ASCII name in upper case.
fn upper(s: &[u8]) -> Clean
    requires { length s.now ≤ 32 }
    ensures { result ≡ record { bytes = upper s.now ++ replicate (32 - length s.now) 0; len = length s.now } }
{
    let mut bytes = [0u8; 32];
    for (i, b) in s.iter().enumerate() {
        bytes[i] = name_bytes::upper_byte(*b);
    }
    Clean {
        bytes,
        len: s.len(),
    }
}

fn names_none(clean: &[u8]) -> bool
    ensures { result ≡ names_none clean.now }
{
    if name_bytes::is(clean, b"") {
        return true;
    }
    if name_bytes::is(clean, b"NONE") {
        return true;
    }
    name_bytes::is(clean, b"UNCOATED")
}

fn names_mgf2(clean: &[u8]) -> bool
    ensures { result ≡ names_mgf2 clean.now }
{
    if name_bytes::is(clean, b"MGF2") {
        return true;
    }
    name_bytes::contains(clean, b"MGF2")
}

fn names_bbar(clean: &[u8]) -> bool
    ensures { result ≡ names_bbar clean.now }
{
    if name_bytes::is(clean, b"BBAR") {
        return true;
    }
    if name_bytes::is(clean, b"HE-NE") {
        return true;
    }
    name_bytes::contains(clean, b"BBAR")
}

fn names_mirror(clean: &[u8]) -> bool
    ensures { result ≡ names_mirror clean.now }
{
    if name_bytes::is(clean, b"MIRROR") {
        return true;
    }
    if name_bytes::contains(clean, b"REFL") {
        return true;
    }
    name_bytes::is(clean, b"HR")
}

fn names_ar(clean: &[u8]) -> bool
    ensures { result ≡ names_ar clean.now }
{
    if name_bytes::is(clean, b"AR") {
        return true;
    }
    if name_bytes::contains(clean, b"AR_") {
        return true;
    }
    name_bytes::contains(clean, b"AR")
}

// The coating of a trimmed upper-case name; an unknown one is the ideal AR coating.
fn coating_of(clean: &[u8]) -> Option<SurfaceCoating>
    ensures { result ≡ coating_of clean.now }
{
    if names_none(clean) {
        None
    } else if names_mgf2(clean) {
        Some(SurfaceCoating::mgf2_default())
    } else if names_bbar(clean) {
        Some(SurfaceCoating::BroadbandAr)
    } else if names_mirror(clean) {
        Some(SurfaceCoating::HighReflectanceMirror)
    } else if names_ar(clean) {
        Some(SurfaceCoating::IdealAr)
    } else {
        Some(SurfaceCoating::IdealAr)
    }
}

// The coating of a trimmed name.
fn coating_in(part: &[u8]) -> Option<SurfaceCoating>
    requires { length part.now ≤ 32 }
    ensures { result ≡ coating_of (upper part.now) }
{
    let u = upper(part);
    let bytes = u.bytes;
    let len = u.len;
    coating_of(&bytes[..len])
}

// The coating that a name stands for. Over 32 bytes are refused with 2 at 32, a byte over 127 with 2 at
// its place.
pub fn from_format_name(name: &[u8]) -> Result<Option<SurfaceCoating>, Refusal>
    ensures { outcome result ≡ from_format_name name.now }
{
    if name.len() > 32 {
        return Err(Refusal::Name(32));
    }
    let over = name_bytes::first_over(name);
    if over < name.len() {
        return Err(Refusal::Name(over));
    }
    Ok(coating_in(name_bytes::trimmed(name)))
}

// ---- to_format_name

pub fn to_format_name(coating: SurfaceCoating) -> Text
    ensures { result ≡ text (format_name coating) }
{
    match coating {
        SurfaceCoating::IdealAr => Text {
            bytes: *b"AR\0\0\0\0\0\0\0\0\0\0\0\0\0\0",
            len: 2,
        },
        SurfaceCoating::MgF2 {
            design_wavelength_nm: _,
        } => Text {
            bytes: *b"MGF2\0\0\0\0\0\0\0\0\0\0\0\0",
            len: 4,
        },
        SurfaceCoating::BroadbandAr => Text {
            bytes: *b"BBAR\0\0\0\0\0\0\0\0\0\0\0\0",
            len: 4,
        },
        SurfaceCoating::HighReflectanceMirror => Text {
            bytes: *b"MIRROR\0\0\0\0\0\0\0\0\0\0",
            len: 6,
        },
        SurfaceCoating::Custom(_) => Text {
            bytes: *b"CUSTOM\0\0\0\0\0\0\0\0\0\0",
            len: 6,
        },
    }
}
