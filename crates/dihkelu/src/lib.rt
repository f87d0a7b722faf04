// The C interface (include/dihkelu.h). A list is lent as a pointer and a count of elements, two
// arguments one after the other, and a number as a pointer. No call that refuses changes what it was lent:
// a refusal is its number times 2^32 plus its place, which is 0 where the documents give none.
#![tactic(auto)]

ghost use Rattle.std.specs.Prelude.{◌≡◌, [], ◌∷◌};
ghost use Rattle.ieee.specs.Functions.{zero_f};
ghost use Rattle.gate.specs.Gate as Gate;
ghost use Rattle.gate.specs.Gate.{gated, gate};
ghost use Rattle.c_layers.specs.Evaluate.{evaluate};
ghost use Rattle.c_call.specs.Call.{done, Apart, returned, written, answered};
ghost use Rattle.c_call.specs.Layout.{evaluated, surface_answered, rows, alone, entries};
ghost use Rattle.thin_film_shorthand.specs.Stack.{stack};
ghost use Rattle.c_stack.specs.Stack.{stacked};
ghost use Rattle.c_scan.specs.Scan.{evaluate_list, scanned};
ghost use Rattle.c_scan.specs.Argument.{invalid_argument};
ghost use Rattle.polarization_mueller.specs.Mueller.{to_mueller};
ghost use Rattle.polarization_born_wolf.specs.Conversion.{to_mueller_born_wolf};
ghost use Rattle.c_mueller.specs.Mueller.{converted};
ghost use Rattle.reflectance_range.specs.Range.{reflectance_range};
ghost use Rattle.c_range.specs.Range.{ranged};
ghost use Rattle.quarter_waves.specs.Waves.{quarter_waves};
ghost use Rattle.c_quarter_waves.specs.Waves.{counted};
ghost use Rattle.refusal.specs.Outcome.{map, outcome};
ghost use Rattle.fresnel.specs.Fresnel.{fresnel_dielectric, fresnel_unpolarized, schlick_approx};
ghost use Rattle.polarization.specs.Surface.{surface_fresnel_jones};
ghost use Rattle.c_fresnel.specs.Fresnel.{reflectances, totals, matrices};
ghost use Rattle.thin_film_coating.specs.Coating.{quarter_wave_layers};
ghost use Rattle.c_presets.specs.Presets.{mirror};
ghost use Rattle.name_coating.specs.Name.{from_format_name};
ghost use Rattle.c_names.specs.Names.{named_code, left, name_left, coating_name, cut, trim_left};
ghost use Rattle.polarization_stokes.specs.Jones.{intensity, normalize, to_stokes};
ghost use Rattle.polarization_mueller.specs.Jones.{linear_polarizer, retarder, quarter_wave_plate, half_wave_plate, diattenuator, apply, mul};
ghost use Rattle.polarization_mueller.specs.Mueller.{apply_mueller};
ghost use Rattle.c_mueller.specs.Mueller as Matrix;
ghost use Rattle.c_polarization.specs.Numbers.{of, of_two, vector, stokes, mueller, parts, parameters, figures};
ghost use Rattle.train_steps.specs.Train.{step, retune, run};
ghost use Rattle.band.specs.Band.{band};
ghost use Rattle.sheet_surfaces.specs.Surfaces.{surface_answers};
ghost use Rattle.sheet_retuned.specs.Retuned.{answers_at};
ghost use Rattle.dihkelu.specs.Train.{called, state, started, moved, run_done};
ghost use Rattle.sheet_edition_1.specs.Edition.{to_edition_1};
ghost use Rattle.dihkelu.specs.Edition.{copied, rewritten};
ghost use Rattle.dihkelu.specs.Band.{banded};
ghost use Rattle.dihkelu.specs.Version.{version};

use refusal::Refusal;
use surface::Answers;
use train_steps::State;

// ---- the library

// Its version: major times 2^16 plus minor.
pub fn dihkelu_version() -> u32
    ensures { result ≡ version }
{
    0x0000_0004
}

// ---- a coated surface

// SurfaceCoating::evaluate: the coating by its code, its layers as n, k, thickness one after the
// other. Writes the response to the front of list and returns the count of its numbers; or returns
// a refusal: 1, then 3, then 8 for a list that is too short.
pub fn dihkelu_evaluate(
    code: u32,
    design_wavelength_nm: f64,
    n_incident: f64,
    n_substrate: f64,
    angle_incident_rad: f64,
    wavelength_nm: f64,
    layers: &[f64],
    list: &mut [f64],
) -> u64
    ensures { done result list.new ≡ answered evaluated (evaluate code design_wavelength_nm n_incident n_substrate angle_incident_rad wavelength_nm layers.now) list.old }
{
    let evaluation = c_layers::evaluate(
        code,
        design_wavelength_nm,
        n_incident,
        n_substrate,
        angle_incident_rad,
        wavelength_nm,
        layers,
    );
    match evaluation {
        Ok(r) => c_call::put_response(r, list),
        Err(r) => c_call::packed(r),
    }
}

// The same at many angles and wavelengths, angles_rad[i] and wavelengths_nm[i] being case i: writes the responses one
// after the other and returns the count of their numbers; or a refusal: 1 for lists of unequal length, that of the first
// case that is refused, 1 or 3, with its index as the place, then 8.
pub fn dihkelu_evaluate_list(
    code: u32,
    design_wavelength_nm: f64,
    n_incident: f64,
    n_substrate: f64,
    angles_rad: &[f64],
    wavelengths_nm: &[f64],
    layers: &[f64],
    list: &mut [f64],
) -> u64
    ensures { done result list.new ≡ answered scanned (evaluate_list code design_wavelength_nm n_incident n_substrate angles_rad.now wavelengths_nm.now layers.now) list.old }
{
    c_scan::evaluate_list(
        code,
        design_wavelength_nm,
        n_incident,
        n_substrate,
        angles_rad,
        wavelengths_nm,
        layers,
        list,
    )
}

// Which argument earned evaluate's refusal 1: 1 n_incident, 2 n_substrate, 3 the angle, 4 the wavelength, the first
// of them that fails; 0 where none does.
pub fn dihkelu_invalid_argument(
    n_incident: f64,
    n_substrate: f64,
    angle_incident_rad: f64,
    wavelength_nm: f64,
) -> u64
    ensures { result ≡ invalid_argument n_incident n_substrate angle_incident_rad wavelength_nm }
{
    c_scan::invalid_argument(n_incident, n_substrate, angle_incident_rad, wavelength_nm)
}

// The layers that a text of the stack shorthand stands for, H, L and M being quarter waves of three
// indices at the design wavelength: writes n, k, thickness of one after the other, as dihkelu_evaluate
// takes them, and returns the count of these numbers; or a refusal: 1, 9, 10, then 8.
pub fn dihkelu_stack(
    text: &[u8],
    n_h: f64,
    n_l: f64,
    n_m: f64,
    design_wavelength_nm: f64,
    list: &mut [f64],
) -> u64
    ensures { done result list.new ≡ answered stacked (stack text.now n_h n_l n_m design_wavelength_nm) list.old }
{
    c_stack::stack(text, n_h, n_l, n_m, design_wavelength_nm, list)
}

// ---- Mueller matrices

// JonesMatrix::to_mueller of a Jones matrix by its 8 numbers, m00, m01, m10, m11, each as re, im: writes
// the matrix row after row and returns 16; or a refusal: 1 where there are not 8 numbers, then 8.
pub fn dihkelu_to_mueller(jones: &[f64], list: &mut [f64]) -> u64
    ensures { done result list.new ≡ answered rows (converted to_mueller jones.now) list.old }
{
    c_mueller::to_mueller(jones, list)
}

// The same over Stokes vectors with S3 = 2 Im(Ex* Ey), after Born and Wolf: to_mueller_born_wolf.
pub fn dihkelu_mueller_born_wolf(jones: &[f64], list: &mut [f64]) -> u64
    ensures { done result list.new ≡ answered rows (converted to_mueller_born_wolf jones.now) list.old }
{
    c_mueller::mueller_born_wolf(jones, list)
}

// ---- a bare surface

// Met head-on, both indices known as ranges within 1 to 4: writes a low and a high reflectance, between
// which every pair of indices within the ranges reflects, and returns 2; or a refusal: 13, then 8.
pub fn dihkelu_reflectance_range(
    n1_low: f64,
    n1_high: f64,
    n2_low: f64,
    n2_high: f64,
    list: &mut [f64],
) -> u64
    ensures { done result list.new ≡ answered ranged (reflectance_range n1_low n1_high n2_low n2_high) list.old }
{
    c_range::reflectance_range(n1_low, n1_high, n2_low, n2_high, list)
}

// ---- a film in quarter waves

// n * thickness in whole quarters of the wavelength: writes the length that is over and returns the
// count; or a refusal: 14.
pub fn dihkelu_quarter_waves(
    n: f64,
    thickness_nm: f64,
    wavelength_nm: f64,
    remainder_nm: &mut f64,
) -> u64
    ensures { done result (remainder_nm.new ∷ []) ≡ answered counted (quarter_waves n thickness_nm wavelength_nm) (remainder_nm.old ∷ []) }
{
    c_quarter_waves::quarter_waves(n, thickness_nm, wavelength_nm, remainder_nm)
}

// ---- fresnel.rs

// Rs and Rp of a dielectric interface: writes both and returns 2; or 8.
pub fn dihkelu_fresnel_dielectric(cos_theta_i: f64, n1: f64, n2: f64, list: &mut [f64]) -> u64
    ensures { done result list.new ≡ written (reflectances (fresnel_dielectric cos_theta_i n1 n2)) list.old }
{
    c_fresnel::fresnel_dielectric(cos_theta_i, n1, n2, list)
}

// R and T of unpolarized light: writes both and returns 2; or 8.
pub fn dihkelu_fresnel_unpolarized(cos_theta_i: f64, n1: f64, n2: f64, list: &mut [f64]) -> u64
    ensures { done result list.new ≡ written (totals (fresnel_unpolarized cos_theta_i n1 n2)) list.old }
{
    c_fresnel::fresnel_unpolarized(cos_theta_i, n1, n2, list)
}

// Schlick's approximation: writes it and returns 1; or 8.
pub fn dihkelu_schlick_approx(cos_theta_i: f64, n1: f64, n2: f64, list: &mut [f64]) -> u64
    ensures { done result list.new ≡ written (alone (schlick_approx cos_theta_i n1 n2)) list.old }
{
    c_fresnel::schlick_approx(cos_theta_i, n1, n2, list)
}

// The Jones matrices of a bare surface, of the reflected light and of the transmitted: writes them and returns 16; or
// a refusal: 1, then 8.
pub fn dihkelu_surface_fresnel_jones(n1: f64, n2: f64, angle_i_rad: f64, list: &mut [f64]) -> u64
    ensures { done result list.new ≡ answered matrices (surface_fresnel_jones n1 n2 angle_i_rad) list.old }
{
    c_fresnel::surface_fresnel_jones(n1, n2, angle_i_rad, list)
}

// ---- layers and names of coatings

// Coating::quarter_wave_ar: writes n, k, thickness of its layer and returns 3; or 8.
pub fn dihkelu_quarter_wave_ar(
    n_ambient: f64,
    n_substrate: f64,
    design_wavelength_nm: f64,
    list: &mut [f64],
) -> u64
    ensures { done result list.new ≡ written (stacked (quarter_wave_layers n_ambient n_substrate design_wavelength_nm)) list.old }
{
    c_presets::quarter_wave_ar(n_ambient, n_substrate, design_wavelength_nm, list)
}

// Coating::bragg_mirror: writes n, k, thickness of one layer after the other and returns the count of these numbers; or
// a refusal: 3 for more than 31 pairs, then 8.
pub fn dihkelu_bragg_mirror(
    n_high: f64,
    n_low: f64,
    pairs: u32,
    design_wavelength_nm: f64,
    list: &mut [f64],
) -> u64
    ensures { done result list.new ≡ answered stacked (mirror n_high n_low pairs design_wavelength_nm) list.old }
{
    c_presets::bragg_mirror(n_high, n_low, pairs, design_wavelength_nm, list)
}

// SurfaceCoating::from_format_name: returns the code that dihkelu_evaluate has the coating by, 0 for none; or a
// refusal: 2.
pub fn dihkelu_coating_from_name(name: &[u8]) -> u64
    ensures { result ≡ returned (map named_code (from_format_name name.now)) }
{
    c_names::coating_from_name(name)
}

// SurfaceCoating::to_format_name of the coating that dihkelu_evaluate has by a code: writes the name to the front of the
// output and returns its length in bytes; or a refusal: 2 for a code that has no coating, then 8 for an output that is
// too short.
pub fn dihkelu_coating_name(code: u32, output: &mut [u8]) -> u64
    ensures { left result output.new ≡ name_left (coating_name code) output.old }
{
    c_names::coating_name(code, output)
}

// The trimmed part of a name: bytes 0x09 to 0x0D and 0x20 go from both ends. Writes its place in the name and its length
// in bytes, and returns 0; a name without any other byte has a part of length 0 at place 0. It takes all bytes and
// refuses none.
pub fn dihkelu_trim(name: &[u8], place: &mut u64, length: &mut u64) -> u64
    ensures { cut result place.new length.new ≡ trim_left name.now }
{
    c_names::trim(name, place, length)
}

// ---- Jones and Stokes vectors: 4 numbers each, else 1; then 8

// JonesVector::to_stokes: writes S0 to S3 and returns 4.
pub fn dihkelu_to_stokes(field: &[f64], list: &mut [f64]) -> u64
    ensures { done result list.new ≡ answered parameters (of 4 (λ given. to_stokes (vector given)) field.now) list.old }
{
    c_polarization::to_stokes(field, list)
}

// JonesVector::normalize: writes the vector and returns 4.
pub fn dihkelu_jones_normalize(field: &[f64], list: &mut [f64]) -> u64
    ensures { done result list.new ≡ answered parts (of 4 (λ given. normalize (vector given)) field.now) list.old }
{
    c_polarization::jones_normalize(field, list)
}

// JonesVector::intensity: writes it and returns 1.
pub fn dihkelu_jones_intensity(field: &[f64], list: &mut [f64]) -> u64
    ensures { done result list.new ≡ answered alone (of 4 (λ given. intensity (vector given)) field.now) list.old }
{
    c_polarization::jones_intensity(field, list)
}

// The degrees of polarization, of linear and of circular polarization, the orientation and the ellipticity: writes
// them and returns 5.
pub fn dihkelu_stokes_figures(beam: &[f64], list: &mut [f64]) -> u64
    ensures { done result list.new ≡ answered figures (of 4 (λ given. stokes given) beam.now) list.old }
{
    c_polarization::stokes_figures(beam, list)
}

// ---- Jones matrices, 8 numbers, and Mueller matrices, 16

// JonesMatrix::apply: writes the vector and returns 4.
pub fn dihkelu_jones_apply(matrix: &[f64], field: &[f64], list: &mut [f64]) -> u64
    ensures { done result list.new ≡ answered parts (of_two 8 4 (λ given other. apply (Matrix.jones given) (vector other)) matrix.now field.now) list.old }
{
    c_polarization::jones_apply(matrix, field, list)
}

// JonesMatrix::mul: writes the product and returns 8.
pub fn dihkelu_jones_mul(left: &[f64], right: &[f64], list: &mut [f64]) -> u64
    ensures { done result list.new ≡ answered entries (of_two 8 8 (λ given other. mul (Matrix.jones given) (Matrix.jones other)) left.now right.now) list.old }
{
    c_polarization::jones_mul(left, right, list)
}

// MuellerMatrix::apply: writes the Stokes vector and returns 4.
pub fn dihkelu_mueller_apply(matrix: &[f64], beam: &[f64], list: &mut [f64]) -> u64
    ensures { done result list.new ≡ answered parameters (of_two 16 4 (λ given other. apply_mueller (mueller given) (stokes other)) matrix.now beam.now) list.old }
{
    c_polarization::mueller_apply(matrix, beam, list)
}

// JonesMatrix::diattenuator of two amplitudes, each re, im: writes the matrix and returns 8.
pub fn dihkelu_diattenuator(amplitudes: &[f64], list: &mut [f64]) -> u64
    ensures { done result list.new ≡ answered entries (of 4 (λ given. diattenuator (vector given).ex (vector given).ey) amplitudes.now) list.old }
{
    c_polarization::diattenuator(amplitudes, list)
}

// JonesMatrix::linear_polarizer: writes the matrix and returns 8; or 8.
pub fn dihkelu_linear_polarizer(angle_rad: f64, list: &mut [f64]) -> u64
    ensures { done result list.new ≡ written (entries (linear_polarizer angle_rad)) list.old }
{
    c_polarization::linear_polarizer(angle_rad, list)
}

// JonesMatrix::retarder.
pub fn dihkelu_retarder(retardance_rad: f64, fast_axis_rad: f64, list: &mut [f64]) -> u64
    ensures { done result list.new ≡ written (entries (retarder retardance_rad fast_axis_rad)) list.old }
{
    c_polarization::retarder(retardance_rad, fast_axis_rad, list)
}

// JonesMatrix::quarter_wave_plate.
pub fn dihkelu_quarter_wave_plate(fast_axis_rad: f64, list: &mut [f64]) -> u64
    ensures { done result list.new ≡ written (entries (quarter_wave_plate fast_axis_rad)) list.old }
{
    c_polarization::quarter_wave_plate(fast_axis_rad, list)
}

// JonesMatrix::half_wave_plate.
pub fn dihkelu_half_wave_plate(fast_axis_rad: f64, list: &mut [f64]) -> u64
    ensures { done result list.new ≡ written (entries (half_wave_plate fast_axis_rad)) list.old }
{
    c_polarization::half_wave_plate(fast_axis_rad, list)
}

// ---- the gate and the train

// An answer of the gate as one number.
fn number_of(g: Result<u32, Refusal>) -> u64
    requires { Apart (outcome g) }
    ensures { result ≡ returned (outcome g) }
{
    match g {
        Ok(count) => count as u64,
        Err(r) => c_call::packed(r),
    }
}

// The gate: the count of surfaces, or a refusal: 4, 5 or 6.
pub fn dihkelu_gate(sheet: &[u8]) -> u64
    ensures { result ≡ returned (gate sheet.now) }
{
    number_of(gate::gate(sheet))
}

// A fresh train: writes 0 surfaces done and the BEAM's s, p and wavelength, and returns the count of
// surfaces; or a refusal: 4, 5 or 6.
pub fn dihkelu_start(
    sheet: &[u8],
    surfaces_done: &mut u32,
    s: &mut f64,
    p: &mut f64,
    wavelength_nm: &mut f64,
) -> u64
    ensures { called result (state surfaces_done.new s.new p.new wavelength_nm.new) ≡ started (gated sheet.now) (state surfaces_done.old s.old p.old wavelength_nm.old) }
{
    match gate::gate(sheet) {
        Ok(count) => {
            let beam = sheet_values::beam_of(sheet);
            *surfaces_done = 0;
            *s = beam.s;
            *p = beam.p;
            *wavelength_nm = beam.wavelength_nm;
            count as u64
        }
        Err(r) => c_call::packed(r),
    }
}

// One surface on from any state: writes the next one and returns its surfaces done; or a refusal: 4, 5,
// 6, 7 or 11.
pub fn dihkelu_step(
    sheet: &[u8],
    surfaces_done: &mut u32,
    s: &mut f64,
    p: &mut f64,
    wavelength_nm: &mut f64,
) -> u64
    ensures { called result (state surfaces_done.new s.new p.new wavelength_nm.new) ≡ moved (step sheet.now (state surfaces_done.old s.old p.old wavelength_nm.old)) (state surfaces_done.old s.old p.old wavelength_nm.old) }
{
    let state = State {
        done: *surfaces_done,
        s: *s,
        p: *p,
        wavelength_nm: *wavelength_nm,
    };
    match train_steps::step(sheet, state) {
        Ok(next) => {
            *surfaces_done = next.done;
            *s = next.s;
            *p = next.p;
            *wavelength_nm = next.wavelength_nm;
            next.done as u64
        }
        Err(r) => c_call::packed(r),
    }
}

// A new wavelength for the surfaces not yet done, from any state: writes it and returns the surfaces
// done; or a refusal: 4, 5, 6 or 11. A state's s and p do not count.
pub fn dihkelu_retune(
    sheet: &[u8],
    surfaces_done: u32,
    wavelength_nm: &mut f64,
    new_wavelength_nm: f64,
) -> u64
    ensures { called result (state surfaces_done zero_f zero_f wavelength_nm.new) ≡ moved (retune sheet.now (state surfaces_done zero_f zero_f wavelength_nm.old) new_wavelength_nm) (state surfaces_done zero_f zero_f wavelength_nm.old) }
{
    let state = State {
        done: surfaces_done,
        s: 0.0,
        p: 0.0,
        wavelength_nm: *wavelength_nm,
    };
    match train_steps::retune(sheet, state, new_wavelength_nm) {
        Ok(next) => {
            *wavelength_nm = next.wavelength_nm;
            next.done as u64
        }
        Err(r) => c_call::packed(r),
    }
}

// A whole run: writes s, p after each surface and returns the count of surfaces; or a refusal: 4, 5,
// 6, then 8 for a list shorter than 2 numbers for each surface.
pub fn dihkelu_run(sheet: &[u8], list: &mut [f64]) -> u64
    ensures { done result list.new ≡ run_done (run sheet.now list.old) }
{
    number_of(train_steps::run(sheet, list))
}

// ---- sheets for the old reduction program

// An edition 1 sheet for a sheet of either edition, which runs alike: writes it to the front of the output
// and returns its length in bytes; or a refusal: 4, 5, 6, 12 at the first kind 7, then 8 for an output that
// is too short.
pub fn dihkelu_edition_1(sheet: &[u8], output: &mut [u8]) -> u64
    ensures { copied result output.new ≡ rewritten (to_edition_1 sheet.now output.old) }
{
    match sheet_edition_1::to_edition_1(sheet, output) {
        Ok(n) => n as u64,
        Err(r) => c_call::packed(r),
    }
}

// ---- a whole band

// The means of s and of p over the lines of a band, each a wavelength and a weight: writes s, p and returns
// the count of lines; or a refusal: 4, 5, 6, 12, 15, 16, then 8.
pub fn dihkelu_band(sheet: &[u8], wavelengths_nm: &[f64], weights: &[u32], list: &mut [f64]) -> u64
    ensures { done result list.new ≡ answered banded (band sheet.now wavelengths_nm.now weights.now) list.old }
{
    match band::band(sheet, wavelengths_nm, weights) {
        Ok(b) => c_call::put_both(b.lines as u64, b.s, b.p, list),
        Err(r) => c_call::packed(r),
    }
}

// ---- a surface's answers

// Answers, or the refusal that stands beside them.
fn put_surface(reply: Result<Answers, Refusal>, list: &mut [f64]) -> u64
    requires { Apart (outcome reply) }
    ensures { done result list.new ≡ answered surface_answered (outcome reply) list.old }
{
    match reply {
        Ok(answers) => c_call::put_answers(answers, list),
        Err(r) => c_call::packed(r),
    }
}

// Of a sheet's surface, counted from 0: writes its answers and returns the count of their numbers; or
// a refusal: 4, 5, 6, 7 where there is no such surface, then 8.
pub fn dihkelu_answers(sheet: &[u8], surface: u32, list: &mut [f64]) -> u64
    ensures { done result list.new ≡ answered surface_answered (surface_answers sheet.now surface) list.old }
{
    put_surface(sheet_surfaces::surface_answers(sheet, surface), list)
}

// The same where the train is retuned to a wavelength right before that surface is stepped; a kind 7 before the surface
// acts over it. Refuses with 4, 5, 6, 7, then 11 where that retune is refused, then 8.
pub fn dihkelu_answers_at(sheet: &[u8], surface: u32, wavelength_nm: f64, list: &mut [f64]) -> u64
    ensures { done result list.new ≡ answered surface_answered (answers_at sheet.now surface wavelength_nm) list.old }
{
    put_surface(
        sheet_retuned::answers_at(sheet, surface, wavelength_nm),
        list,
    )
}
