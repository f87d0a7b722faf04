// Names of coatings for callers in C: the code that a name stands for, the name of a code's coating, and the trimmed part
// of a name.
#![tactic(auto)]

ghost use Rattle.std.specs.Prelude.{◌≡◌, ◌++◌, ◌≤◌, length, drop};
ghost use Rattle.refusal.specs.Outcome.{map};
ghost use Rattle.name_coating.specs.Name.{from_format_name, format_name};
ghost use Rattle.thin_film.specs.declared.SurfaceCoating.TheVariants as SurfaceCoating;
ghost use Rattle.thin_film.specs.Coating.{standard_wavelength};
ghost use Rattle.c_layers.specs.Evaluate.{call_coating};
ghost use Rattle.c_call.specs.Call.{returned};
ghost use Rattle.c_names.specs.Names.{code_of, named_code, left, laid, name_left, coating_name, cut, trim_left};

use thin_film::SurfaceCoating;
use thin_film_coating::Coating;

// The code of a coating of the user's own.
fn custom_code(coating: Coating) -> u32
    ensures { result ≡ code_of (SurfaceCoating.Custom coating) }
{
    match coating {
        Coating::Multilayer => 5,
        Coating::IdealBeamsplitter => 6,
        Coating::IdealMirror => 7,
        Coating::IdealAr => 8,
    }
}

// The code that dihkelu_evaluate has a coating by.
fn code_of(coating: SurfaceCoating) -> u32
    ensures { result ≡ code_of coating }
{
    match coating {
        SurfaceCoating::IdealAr => 1,
        SurfaceCoating::MgF2 {
            design_wavelength_nm: _,
        } => 2,
        SurfaceCoating::BroadbandAr => 3,
        SurfaceCoating::HighReflectanceMirror => 4,
        SurfaceCoating::Custom(custom) => custom_code(custom),
    }
}

// SurfaceCoating::from_format_name: the coating's code, 0 for none; or a refusal: 2.
pub fn coating_from_name(name: &[u8]) -> u64
    ensures { result ≡ returned (map named_code (from_format_name name.now)) }
{
    match name_coating::from_format_name(name) {
        Ok(Some(coating)) => code_of(coating) as u64,
        Ok(None) => 0,
        Err(r) => c_call::packed(r),
    }
}

// ---- to_format_name

// The coating that dihkelu_evaluate has by a code; an MgF2 at 550 nm.
fn coating_of(code: u32) -> Option<SurfaceCoating>
    ensures { result ≡ call_coating code standard_wavelength }
{
    if code == 8 {
        return Some(SurfaceCoating::Custom(Coating::IdealAr));
    }
    gate_limits::coded(code, 550.0)
}

// A name of at most 16 bytes at the front of an output that has room for it. Its length is tested at each place: of a loop over
// the name alone the compiler makes a call of C's memcpy.
fn copy(name: &[u8], output: &mut [u8])
    requires { (length name.now ≤ 16) × (length name.now ≤ length output.old) }
    ensures { output.new ≡ name.now ++ drop (length name.now) output.old }
{
    for i in 0..16 {
        if i < name.len() {
            output[i] = name[i];
        }
    }
}

// The same, and its length; 8 for an output that is too short.
fn put(name: &[u8], output: &mut [u8]) -> u64
    requires { length name.now ≤ 16 }
    ensures { left result output.new ≡ laid name.now output.old }
{
    if output.len() < name.len() {
        return 0x8_0000_0000;
    }
    copy(name, output);
    name.len() as u64
}

// The name of a coating.
fn put_name(coating: SurfaceCoating, output: &mut [u8]) -> u64
    ensures { left result output.new ≡ laid (format_name coating) output.old }
{
    let text = name_coating::to_format_name(coating);
    let bytes = text.bytes;
    let len = text.len;
    put(&bytes[..len], output)
}

// SurfaceCoating::to_format_name of the coating that a code stands for: writes the name to the front of the
// output and returns its length; or a refusal: 2 for a code that has none, then 8.
pub fn coating_name(code: u32, output: &mut [u8]) -> u64
    ensures { left result output.new ≡ name_left (coating_name code) output.old }
{
    match coating_of(code) {
        Some(coating) => put_name(coating, output),
        None => 0x2_0000_0000,
    }
}

// ---- trim

// The trimmed part of a name: writes its place in the name and its length in bytes; takes all bytes and returns 0.
pub fn trim(name: &[u8], place: &mut u64, length: &mut u64) -> u64
    ensures { cut result place.new length.new ≡ trim_left name.now }
{
    let span = name_bytes::trim_numbers(name);
    *place = span.place as u64;
    *length = span.len as u64;
    0
}
