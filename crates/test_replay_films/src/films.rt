// The functions 60 to 79: of thin films.
ghost use Rattle.std.specs.Prelude.{◌≤◌};

use polarization_mueller::JonesMatrix;
use refusal::Refusal;
use test_records::Four;
use thin_film::{SurfaceCoating, Text};
use thin_film_coating::{Built, Coating, Layers};
use thin_film_solver::{CoatingResponse, ThinFilmLayer};

fn one(out: &mut [u64; 256], x: f64) -> usize {
    let w = [x];
    test_records::write(out, 0, &w);
    1
}

fn layer_out(out: &mut [u64; 256], at: usize, l: ThinFilmLayer) {
    let w = [l.n, l.k, l.thickness_nm];
    test_records::write(out, at, &w);
}

fn layer_at(a: &[u8], i: usize) -> ThinFilmLayer {
    let x = test_records::four_at(a, i);
    ThinFilmLayer {
        n: x.a,
        k: x.b,
        thickness_nm: x.c,
    }
}

// A coating by its code, 5 to 8.
fn coating(code: u32) -> Coating {
    match code {
        5 => Coating::Multilayer,
        6 => Coating::IdealBeamsplitter,
        7 => Coating::IdealMirror,
        _ => Coating::IdealAr,
    }
}

fn code_of(c: Coating) -> u64 {
    match c {
        Coating::Multilayer => 5,
        Coating::IdealBeamsplitter => 6,
        Coating::IdealMirror => 7,
        Coating::IdealAr => 8,
    }
}

// A coating as it is ordered, by its code, 1 to 8.
fn surface(code: u32, design: f64) -> SurfaceCoating {
    match code {
        1 => SurfaceCoating::IdealAr,
        2 => SurfaceCoating::MgF2 {
            design_wavelength_nm: design,
        },
        3 => SurfaceCoating::BroadbandAr,
        4 => SurfaceCoating::HighReflectanceMirror,
        _ => SurfaceCoating::Custom(coating(code)),
    }
}

// The same of a call's first two words.
pub fn surface_at(a: &[u8]) -> SurfaceCoating {
    surface(test_records::small_at(a, 0), test_records::float_at(a, 1))
}

// The layers behind the count in the fourth word. They end the record, so those past them are zero.
fn layers_at(a: &[u8]) -> Layers {
    let mut items = [ThinFilmLayer {
        n: 0.0,
        k: 0.0,
        thickness_nm: 0.0,
    }; 64];
    for (i, item) in items.iter_mut().enumerate() {
        *item = layer_at(a, 4 + 3 * i);
    }
    Layers {
        items,
        count: test_records::small_at(a, 3) as usize,
    }
}

// The first 72 of the layers from a place on.
fn items_at(a: &[u8], from: usize) -> [ThinFilmLayer; 72]
    requires { from ≤ 8 }
{
    let mut items = [ThinFilmLayer {
        n: 0.0,
        k: 0.0,
        thickness_nm: 0.0,
    }; 72];
    for (i, item) in items.iter_mut().enumerate() {
        *item = layer_at(a, from + 3 * i);
    }
    items
}

// A coating's code and its layers with their count, from a place on; the place behind them.
fn built_out(out: &mut [u64; 256], at: usize, b: Built) -> usize
    requires { at ≤ 1 }
{
    let c = b.coating;
    let layers = b.layers;
    let items = layers.items;
    let count = layers.count;
    if count > 64 {
        return 0;
    }
    out[at] = code_of(c);
    out[at + 1] = count as u64;
    for (i, layer) in items[..count].iter().enumerate() {
        layer_out(out, at + 2 + 3 * i, *layer);
    }
    at + 2 + 3 * count
}

// The same behind an outcome word.
fn outcome_out(out: &mut [u64; 256], b: Built) -> usize {
    out[0] = b.refusal as u64;
    if b.refusal == 0 {
        return built_out(out, 1, b);
    }
    out[1] = 0;
    2
}

fn response_out(out: &mut [u64; 256], r: CoatingResponse) -> usize {
    out[0] = 0;
    test_records::write_response(out, 1, r);
    17
}

fn evaluation_out(out: &mut [u64; 256], e: Result<CoatingResponse, Refusal>) -> usize {
    match e {
        Ok(r) => response_out(out, r),
        Err(r) => test_records::write_refusal(out, r),
    }
}

fn mgf2_out(out: &mut [u64; 256], s: SurfaceCoating) -> usize {
    out[0] = 2;
    if let SurfaceCoating::MgF2 {
        design_wavelength_nm,
    } = s
    {
        out[1] = test_records::bits(design_wavelength_nm);
    }
    2
}

// A text's length and its bytes.
pub fn text_out(out: &mut [u64; 256], t: Text) -> usize {
    let b = t.bytes;
    let n = t.len;
    out[0] = n as u64;
    out[1] = test_records::word_at(&b, 0);
    out[2] = test_records::word_at(&b, 1);
    if n <= 8 { 2 } else { 3 }
}

fn product(x: JonesMatrix, y: JonesMatrix) -> JonesMatrix {
    let a = x.m;
    let b = y.m;
    let m = thin_film_matrix::mat_mul_2x2(
        [[a[0], a[1]], [a[2], a[3]]],
        [[b[0], b[1]], [b[2], b[3]]],
    );
    JonesMatrix {
        m: [m[0][0], m[0][1], m[1][0], m[1][1]],
    }
}

fn coating_evaluation(a: &[u8]) -> Result<CoatingResponse, Refusal> {
    let x = test_records::four_at(a, 1);
    let n = test_records::small_at(a, 5) as usize;
    let c = coating(test_records::small_at(a, 0));
    test_layers::evaluate_coating(c, items_at(a, 6), n, x.a, x.b, x.c, x.d)
}

fn surface_evaluation(a: &[u8]) -> Result<CoatingResponse, Refusal> {
    let x = test_records::four_at(a, 2);
    let n = test_records::small_at(a, 6) as usize;
    test_layers::evaluate_surface(surface_at(a), items_at(a, 7), n, x.a, x.b, x.c, x.d)
}

fn multilayer_response(a: &[u8]) -> CoatingResponse {
    let x = test_records::four_at(a, 0);
    let n = test_records::small_at(a, 4) as usize;
    test_layers::evaluate_multilayer(items_at(a, 5), n, x.a, x.b, x.c, x.d).unwrap_or(
        thin_film_solver::no_response(),
    )
}

// 60 to 63.
fn small_call(f: usize, x: Four, r: CoatingResponse, out: &mut [u64; 256]) -> usize {
    match f {
        60 => {
            layer_out(out, 0, ThinFilmLayer::dielectric(x.a, x.b));
            3
        }
        61 => {
            layer_out(out, 0, ThinFilmLayer::absorbing(x.a, x.b, x.c));
            3
        }
        62 => one(out, r.unpolarized_reflectance()),
        _ => one(out, r.unpolarized_transmittance()),
    }
}

// 64 to 67.
fn built_call(f: usize, a: &[u8], x: Four, out: &mut [u64; 256]) -> usize {
    match f {
        64 => built_out(out, 0, Coating::quarter_wave_ar(x.a, x.b, x.c)),
        65 => outcome_out(
            out,
            Coating::bragg_mirror(x.a, x.b, test_records::small_at(a, 2) as usize, x.d),
        ),
        66 => mgf2_out(out, SurfaceCoating::mgf2_default()),
        _ => outcome_out(out, surface_at(a).to_coating(layers_at(a), x.c)),
    }
}

// How many words the function gave; 0 where it is not one of these.
pub fn call(f: usize, a: &[u8], out: &mut [u64; 256]) -> usize {
    match f {
        60..=63 => small_call(
            f,
            test_records::four_at(a, 0),
            test_records::response_at(a),
            out,
        ),
        64..=67 => built_call(f, a, test_records::four_at(a, 0), out),
        68 => text_out(out, surface_at(a).label()),
        69 => evaluation_out(out, coating_evaluation(a)),
        70 => evaluation_out(out, surface_evaluation(a)),
        71 => response_out(out, multilayer_response(a)),
        72 => {
            test_records::write_jones(
                out,
                0,
                product(test_records::jones_at(a, 0), test_records::jones_at(a, 8)),
            );
            8
        }
        _ => 0,
    }
}
