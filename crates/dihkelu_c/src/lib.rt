// The calls of the library dihkelu as C sees them (include/dihkelu.h): each calls the function of its name there and states its
// clauses. The archive is handed on as libdihkelu.a.
#![tactic(auto)]

ghost use Rattle.std.specs.Prelude.{◌≡◌, [], ◌∷◌};
ghost use Rattle.ieee.specs.Functions.{zero_f};
ghost use Rattle.gate.specs.Gate.{gated, gate};
ghost use Rattle.c_layers.specs.Evaluate.{evaluate};
ghost use Rattle.c_call.specs.Call.{done, returned, written, answered};
ghost use Rattle.c_call.specs.Layout.{evaluated, surface_answered, rows, alone, entries};
ghost use Rattle.thin_film_shorthand.specs.Stack.{stack};
ghost use Rattle.c_stack.specs.Stack.{stacked};
ghost use Rattle.c_scan.specs.Scan.{evaluate_list, scanned};
ghost use Rattle.c_scan.specs.Argument.{invalid_argument};
ghost use Rattle.polarization_mueller.specs.Mueller.{to_mueller};
ghost use Rattle.polarization_born_wolf.specs.Conversion.{to_mueller_born_wolf};
ghost use Rattle.c_mueller.specs.Mueller.{converted};
ghost use Rattle.reflectance_range.specs.Range.{reflectance_range};
ghost use Rattle.c_range.specs.Range.{ranged};
ghost use Rattle.quarter_waves.specs.Waves.{quarter_waves};
ghost use Rattle.c_quarter_waves.specs.Waves.{counted};
ghost use Rattle.refusal.specs.Outcome.{map};
ghost use Rattle.fresnel.specs.Fresnel.{fresnel_dielectric, fresnel_unpolarized, schlick_approx};
ghost use Rattle.polarization.specs.Surface.{surface_fresnel_jones};
ghost use Rattle.c_fresnel.specs.Fresnel.{reflectances, totals, matrices};
ghost use Rattle.thin_film_coating.specs.Coating.{quarter_wave_layers};
ghost use Rattle.c_presets.specs.Presets.{mirror};
ghost use Rattle.name_coating.specs.Name.{from_format_name};
ghost use Rattle.c_names.specs.Names.{named_code, left, name_left, coating_name, cut, trim_left};
ghost use Rattle.polarization_stokes.specs.Jones.{intensity, normalize, to_stokes};
ghost use Rattle.polarization_mueller.specs.Jones.{linear_polarizer, retarder, quarter_wave_plate, half_wave_plate, diattenuator, apply, mul};
ghost use Rattle.polarization_mueller.specs.Mueller.{apply_mueller};
ghost use Rattle.c_mueller.specs.Mueller as Matrix;
ghost use Rattle.c_polarization.specs.Numbers.{of, of_two, vector, stokes, mueller, parts, parameters, figures};
ghost use Rattle.train_steps.specs.Train.{step, retune, run};
ghost use Rattle.band.specs.Band.{band};
ghost use Rattle.sheet_surfaces.specs.Surfaces.{surface_answers};
ghost use Rattle.sheet_retuned.specs.Retuned.{answers_at};
ghost use Rattle.dihkelu.specs.Train.{called, state, started, moved, run_done};
ghost use Rattle.sheet_edition_1.specs.Edition.{to_edition_1};
ghost use Rattle.dihkelu.specs.Edition.{copied, rewritten};
ghost use Rattle.dihkelu.specs.Band.{banded};
ghost use Rattle.dihkelu.specs.Version.{version};

// ---- the library

#[unsafe(no_mangle)]
pub extern "C" fn dihkelu_version() -> u32
    ensures { result ≡ version }
{
    dihkelu::dihkelu_version()
}

// ---- a coated surface

#[unsafe(no_mangle)]
pub extern "C" fn dihkelu_evaluate(
    code: u32,
    design_wavelength_nm: f64,
    n_incident: f64,
    n_substrate: f64,
    angle_incident_rad: f64,
    wavelength_nm: f64,
    layers: &[f64],
    list: &mut [f64],
) -> u64
    ensures { done result list.new ≡ answered evaluated (evaluate code design_wavelength_nm n_incident n_substrate angle_incident_rad wavelength_nm layers.now) list.old }
{
    dihkelu::dihkelu_evaluate(
        code,
        design_wavelength_nm,
        n_incident,
        n_substrate,
        angle_incident_rad,
        wavelength_nm,
        layers,
        list,
    )
}

#[unsafe(no_mangle)]
pub extern "C" fn dihkelu_evaluate_list(
    code: u32,
    design_wavelength_nm: f64,
    n_incident: f64,
    n_substrate: f64,
    angles_rad: &[f64],
    wavelengths_nm: &[f64],
    layers: &[f64],
    list: &mut [f64],
) -> u64
    ensures { done result list.new ≡ answered scanned (evaluate_list code design_wavelength_nm n_incident n_substrate angles_rad.now wavelengths_nm.now layers.now) list.old }
{
    dihkelu::dihkelu_evaluate_list(
        code,
        design_wavelength_nm,
        n_incident,
        n_substrate,
        angles_rad,
        wavelengths_nm,
        layers,
        list,
    )
}

#[unsafe(no_mangle)]
pub extern "C" fn dihkelu_invalid_argument(
    n_incident: f64,
    n_substrate: f64,
    angle_incident_rad: f64,
    wavelength_nm: f64,
) -> u64
    ensures { result ≡ invalid_argument n_incident n_substrate angle_incident_rad wavelength_nm }
{
    dihkelu::dihkelu_invalid_argument(n_incident, n_substrate, angle_incident_rad, wavelength_nm)
}

#[unsafe(no_mangle)]
pub extern "C" fn dihkelu_stack(
    text: &[u8],
    n_h: f64,
    n_l: f64,
    n_m: f64,
    design_wavelength_nm: f64,
    list: &mut [f64],
) -> u64
    ensures { done result list.new ≡ answered stacked (stack text.now n_h n_l n_m design_wavelength_nm) list.old }
{
    dihkelu::dihkelu_stack(text, n_h, n_l, n_m, design_wavelength_nm, list)
}

// ---- Mueller matrices

#[unsafe(no_mangle)]
pub extern "C" fn dihkelu_to_mueller(jones: &[f64], list: &mut [f64]) -> u64
    ensures { done result list.new ≡ answered rows (converted to_mueller jones.now) list.old }
{
    dihkelu::dihkelu_to_mueller(jones, list)
}

#[unsafe(no_mangle)]
pub extern "C" fn dihkelu_mueller_born_wolf(jones: &[f64], list: &mut [f64]) -> u64
    ensures { done result list.new ≡ answered rows (converted to_mueller_born_wolf jones.now) list.old }
{
    dihkelu::dihkelu_mueller_born_wolf(jones, list)
}

// ---- a bare surface

#[unsafe(no_mangle)]
pub extern "C" fn dihkelu_reflectance_range(
    n1_low: f64,
    n1_high: f64,
    n2_low: f64,
    n2_high: f64,
    list: &mut [f64],
) -> u64
    ensures { done result list.new ≡ answered ranged (reflectance_range n1_low n1_high n2_low n2_high) list.old }
{
    dihkelu::dihkelu_reflectance_range(n1_low, n1_high, n2_low, n2_high, list)
}

// ---- a film in quarter waves

#[unsafe(no_mangle)]
pub extern "C" fn dihkelu_quarter_waves(
    n: f64,
    thickness_nm: f64,
    wavelength_nm: f64,
    remainder_nm: &mut f64,
) -> u64
    ensures { done result (remainder_nm.new ∷ []) ≡ answered counted (quarter_waves n thickness_nm wavelength_nm) (remainder_nm.old ∷ []) }
{
    dihkelu::dihkelu_quarter_waves(n, thickness_nm, wavelength_nm, remainder_nm)
}

// ---- fresnel.rs

#[unsafe(no_mangle)]
pub extern "C" fn dihkelu_fresnel_dielectric(
    cos_theta_i: f64,
    n1: f64,
    n2: f64,
    list: &mut [f64],
) -> u64
    ensures { done result list.new ≡ written (reflectances (fresnel_dielectric cos_theta_i n1 n2)) list.old }
{
    dihkelu::dihkelu_fresnel_dielectric(cos_theta_i, n1, n2, list)
}

#[unsafe(no_mangle)]
pub extern "C" fn dihkelu_fresnel_unpolarized(
    cos_theta_i: f64,
    n1: f64,
    n2: f64,
    list: &mut [f64],
) -> u64
    ensures { done result list.new ≡ written (totals (fresnel_unpolarized cos_theta_i n1 n2)) list.old }
{
    dihkelu::dihkelu_fresnel_unpolarized(cos_theta_i, n1, n2, list)
}

#[unsafe(no_mangle)]
pub extern "C" fn dihkelu_schlick_approx(
    cos_theta_i: f64,
    n1: f64,
    n2: f64,
    list: &mut [f64],
) -> u64
    ensures { done result list.new ≡ written (alone (schlick_approx cos_theta_i n1 n2)) list.old }
{
    dihkelu::dihkelu_schlick_approx(cos_theta_i, n1, n2, list)
}

#[unsafe(no_mangle)]
pub extern "C" fn dihkelu_surface_fresnel_jones(
    n1: f64,
    n2: f64,
    angle_i_rad: f64,
    list: &mut [f64],
) -> u64
    ensures { done result list.new ≡ answered matrices (surface_fresnel_jones n1 n2 angle_i_rad) list.old }
{
    dihkelu::dihkelu_surface_fresnel_jones(n1, n2, angle_i_rad, list)
}

// ---- layers and names of coatings

#[unsafe(no_mangle)]
pub extern "C" fn dihkelu_quarter_wave_ar(
    n_ambient: f64,
    n_substrate: f64,
    design_wavelength_nm: f64,
    list: &mut [f64],
) -> u64
    ensures { done result list.new ≡ written (stacked (quarter_wave_layers n_ambient n_substrate design_wavelength_nm)) list.old }
{
    dihkelu::dihkelu_quarter_wave_ar(n_ambient, n_substrate, design_wavelength_nm, list)
}

#[unsafe(no_mangle)]
pub extern "C" fn dihkelu_bragg_mirror(
    n_high: f64,
    n_low: f64,
    pairs: u32,
    design_wavelength_nm: f64,
    list: &mut [f64],
) -> u64
    ensures { done result list.new ≡ answered stacked (mirror n_high n_low pairs design_wavelength_nm) list.old }
{
    dihkelu::dihkelu_bragg_mirror(n_high, n_low, pairs, design_wavelength_nm, list)
}

#[unsafe(no_mangle)]
pub extern "C" fn dihkelu_coating_from_name(name: &[u8]) -> u64
    ensures { result ≡ returned (map named_code (from_format_name name.now)) }
{
    dihkelu::dihkelu_coating_from_name(name)
}

#[unsafe(no_mangle)]
pub extern "C" fn dihkelu_coating_name(code: u32, output: &mut [u8]) -> u64
    ensures { left result output.new ≡ name_left (coating_name code) output.old }
{
    dihkelu::dihkelu_coating_name(code, output)
}

#[unsafe(no_mangle)]
pub extern "C" fn dihkelu_trim(name: &[u8], place: &mut u64, length: &mut u64) -> u64
    ensures { cut result place.new length.new ≡ trim_left name.now }
{
    dihkelu::dihkelu_trim(name, place, length)
}

// ---- Jones and Stokes vectors: 4 numbers each, else 1; then 8

#[unsafe(no_mangle)]
pub extern "C" fn dihkelu_to_stokes(field: &[f64], list: &mut [f64]) -> u64
    ensures { done result list.new ≡ answered parameters (of 4 (λ given. to_stokes (vector given)) field.now) list.old }
{
    dihkelu::dihkelu_to_stokes(field, list)
}

#[unsafe(no_mangle)]
pub extern "C" fn dihkelu_jones_normalize(field: &[f64], list: &mut [f64]) -> u64
    ensures { done result list.new ≡ answered parts (of 4 (λ given. normalize (vector given)) field.now) list.old }
{
    dihkelu::dihkelu_jones_normalize(field, list)
}

#[unsafe(no_mangle)]
pub extern "C" fn dihkelu_jones_intensity(field: &[f64], list: &mut [f64]) -> u64
    ensures { done result list.new ≡ answered alone (of 4 (λ given. intensity (vector given)) field.now) list.old }
{
    dihkelu::dihkelu_jones_intensity(field, list)
}

#[unsafe(no_mangle)]
pub extern "C" fn dihkelu_stokes_figures(beam: &[f64], list: &mut [f64]) -> u64
    ensures { done result list.new ≡ answered figures (of 4 (λ given. stokes given) beam.now) list.old }
{
    dihkelu::dihkelu_stokes_figures(beam, list)
}

// ---- Jones matrices, 8 numbers, and Mueller matrices, 16

#[unsafe(no_mangle)]
pub extern "C" fn dihkelu_jones_apply(matrix: &[f64], field: &[f64], list: &mut [f64]) -> u64
    ensures { done result list.new ≡ answered parts (of_two 8 4 (λ given other. apply (Matrix.jones given) (vector other)) matrix.now field.now) list.old }
{
    dihkelu::dihkelu_jones_apply(matrix, field, list)
}

#[unsafe(no_mangle)]
pub extern "C" fn dihkelu_jones_mul(left: &[f64], right: &[f64], list: &mut [f64]) -> u64
    ensures { done result list.new ≡ answered entries (of_two 8 8 (λ given other. mul (Matrix.jones given) (Matrix.jones other)) left.now right.now) list.old }
{
    dihkelu::dihkelu_jones_mul(left, right, list)
}

#[unsafe(no_mangle)]
pub extern "C" fn dihkelu_mueller_apply(matrix: &[f64], beam: &[f64], list: &mut [f64]) -> u64
    ensures { done result list.new ≡ answered parameters (of_two 16 4 (λ given other. apply_mueller (mueller given) (stokes other)) matrix.now beam.now) list.old }
{
    dihkelu::dihkelu_mueller_apply(matrix, beam, list)
}

#[unsafe(no_mangle)]
pub extern "C" fn dihkelu_diattenuator(amplitudes: &[f64], list: &mut [f64]) -> u64
    ensures { done result list.new ≡ answered entries (of 4 (λ given. diattenuator (vector given).ex (vector given).ey) amplitudes.now) list.old }
{
    dihkelu::dihkelu_diattenuator(amplitudes, list)
}

#[unsafe(no_mangle)]
pub extern "C" fn dihkelu_linear_polarizer(angle_rad: f64, list: &mut [f64]) -> u64
    ensures { done result list.new ≡ written (entries (linear_polarizer angle_rad)) list.old }
{
    dihkelu::dihkelu_linear_polarizer(angle_rad, list)
}

#[unsafe(no_mangle)]
pub extern "C" fn dihkelu_retarder(retardance_rad: f64, fast_axis_rad: f64, list: &mut [f64]) -> u64
    ensures { done result list.new ≡ written (entries (retarder retardance_rad fast_axis_rad)) list.old }
{
    dihkelu::dihkelu_retarder(retardance_rad, fast_axis_rad, list)
}

#[unsafe(no_mangle)]
pub extern "C" fn dihkelu_quarter_wave_plate(fast_axis_rad: f64, list: &mut [f64]) -> u64
    ensures { done result list.new ≡ written (entries (quarter_wave_plate fast_axis_rad)) list.old }
{
    dihkelu::dihkelu_quarter_wave_plate(fast_axis_rad, list)
}

#[unsafe(no_mangle)]
pub extern "C" fn dihkelu_half_wave_plate(fast_axis_rad: f64, list: &mut [f64]) -> u64
    ensures { done result list.new ≡ written (entries (half_wave_plate fast_axis_rad)) list.old }
{
    dihkelu::dihkelu_half_wave_plate(fast_axis_rad, list)
}

#[unsafe(no_mangle)]
pub extern "C" fn dihkelu_gate(sheet: &[u8]) -> u64
    ensures { result ≡ returned (gate sheet.now) }
{
    dihkelu::dihkelu_gate(sheet)
}

#[unsafe(no_mangle)]
pub extern "C" fn dihkelu_start(
    sheet: &[u8],
    surfaces_done: &mut u32,
    s: &mut f64,
    p: &mut f64,
    wavelength_nm: &mut f64,
) -> u64
    ensures { called result (state surfaces_done.new s.new p.new wavelength_nm.new) ≡ started (gated sheet.now) (state surfaces_done.old s.old p.old wavelength_nm.old) }
{
    dihkelu::dihkelu_start(sheet, surfaces_done, s, p, wavelength_nm)
}

#[unsafe(no_mangle)]
pub extern "C" fn dihkelu_step(
    sheet: &[u8],
    surfaces_done: &mut u32,
    s: &mut f64,
    p: &mut f64,
    wavelength_nm: &mut f64,
) -> u64
    ensures { called result (state surfaces_done.new s.new p.new wavelength_nm.new) ≡ moved (step sheet.now (state surfaces_done.old s.old p.old wavelength_nm.old)) (state surfaces_done.old s.old p.old wavelength_nm.old) }
{
    dihkelu::dihkelu_step(sheet, surfaces_done, s, p, wavelength_nm)
}

#[unsafe(no_mangle)]
pub extern "C" fn dihkelu_retune(
    sheet: &[u8],
    surfaces_done: u32,
    wavelength_nm: &mut f64,
    new_wavelength_nm: f64,
) -> u64
    ensures { called result (state surfaces_done zero_f zero_f wavelength_nm.new) ≡ moved (retune sheet.now (state surfaces_done zero_f zero_f wavelength_nm.old) new_wavelength_nm) (state surfaces_done zero_f zero_f wavelength_nm.old) }
{
    dihkelu::dihkelu_retune(sheet, surfaces_done, wavelength_nm, new_wavelength_nm)
}

#[unsafe(no_mangle)]
pub extern "C" fn dihkelu_run(sheet: &[u8], list: &mut [f64]) -> u64
    ensures { done result list.new ≡ run_done (run sheet.now list.old) }
{
    dihkelu::dihkelu_run(sheet, list)
}

// ---- sheets for the old reduction program

#[unsafe(no_mangle)]
pub extern "C" fn dihkelu_edition_1(sheet: &[u8], output: &mut [u8]) -> u64
    ensures { copied result output.new ≡ rewritten (to_edition_1 sheet.now output.old) }
{
    dihkelu::dihkelu_edition_1(sheet, output)
}

// ---- a whole band

#[unsafe(no_mangle)]
pub extern "C" fn dihkelu_band(
    sheet: &[u8],
    wavelengths_nm: &[f64],
    weights: &[u32],
    list: &mut [f64],
) -> u64
    ensures { done result list.new ≡ answered banded (band sheet.now wavelengths_nm.now weights.now) list.old }
{
    dihkelu::dihkelu_band(sheet, wavelengths_nm, weights, list)
}

#[unsafe(no_mangle)]
pub extern "C" fn dihkelu_answers(sheet: &[u8], surface: u32, list: &mut [f64]) -> u64
    ensures { done result list.new ≡ answered surface_answered (surface_answers sheet.now surface) list.old }
{
    dihkelu::dihkelu_answers(sheet, surface, list)
}

#[unsafe(no_mangle)]
pub extern "C" fn dihkelu_answers_at(
    sheet: &[u8],
    surface: u32,
    wavelength_nm: f64,
    list: &mut [f64],
) -> u64
    ensures { done result list.new ≡ answered surface_answered (answers_at sheet.now surface wavelength_nm) list.old }
{
    dihkelu::dihkelu_answers_at(sheet, surface, wavelength_nm, list)
}
