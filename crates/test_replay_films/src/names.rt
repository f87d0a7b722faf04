// The functions 140 to 142: of coating names.
use super::films::{surface_at, text_out};
use refusal::Refusal;
use thin_film::SurfaceCoating;

fn code_of(s: SurfaceCoating) -> u64 {
    match s {
        SurfaceCoating::IdealAr => 1,
        SurfaceCoating::MgF2 {
            design_wavelength_nm: _,
        } => 2,
        SurfaceCoating::BroadbandAr => 3,
        SurfaceCoating::HighReflectanceMirror => 4,
        SurfaceCoating::Custom(_) => 5,
    }
}

fn design_of(s: SurfaceCoating) -> f64 {
    match s {
        SurfaceCoating::MgF2 {
            design_wavelength_nm,
        } => design_wavelength_nm,
        _ => 0.0,
    }
}

fn coating_out(out: &mut [u64; 256], code: u64, design: f64) -> usize {
    out[0] = 0;
    out[1] = code;
    out[2] = test_records::bits(design);
    3
}

fn named_out(out: &mut [u64; 256], n: Result<Option<SurfaceCoating>, Refusal>) -> usize {
    match n {
        Ok(Some(s)) => coating_out(out, code_of(s), design_of(s)),
        Ok(None) => coating_out(out, 0, 0.0),
        Err(r) => test_records::write_refusal(out, r),
    }
}

fn span_out(out: &mut [u64; 256], name: &[u8]) -> usize {
    let s = name_bytes::trim_span(name);
    out[0] = s.place as u64;
    out[1] = s.len as u64;
    2
}

// How many words the function gave; 0 where it is not one of these.
pub fn call(f: usize, a: &[u8], out: &mut [u64; 256]) -> usize {
    match f {
        140 => span_out(out, test_records::bytes_at(a, 0)),
        141 => named_out(
            out,
            name_coating::from_format_name(test_records::bytes_at(a, 0)),
        ),
        142 => text_out(out, name_coating::to_format_name(surface_at(a))),
        _ => 0,
    }
}
