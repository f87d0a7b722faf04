// dihkelu_evaluate_list: one coated surface at many angles and wavelengths, its responses in a list that was
// lent. dihkelu_invalid_argument: which argument an evaluation is refused for.
#![tactic(auto)]

ghost use Rattle.std.specs.Prelude.{◌≡◌, ◌++◌, ◌+◌, ◌*◌, ◌≤◌, ◌<◌, length, drop};
ghost use Rattle.c_layers.specs.Evaluate.{evaluate};
ghost use Rattle.c_call.specs.Call.{done, answered};
ghost use Rattle.c_scan.specs.Scan.{evaluate_list, scanned};
ghost use Rattle.c_scan.specs.Argument.{invalid_argument};
ghost use Rattle.c_scan.specs.Internal.{cases, all_answered, refusal_of_all, placed, numbers_of, Room};

use refusal::Refusal;

// The place of a refusal of all cases: none of them has it.
const NO_CASE: usize = 0x1000_0000;

// A case that is refused: its refusal, and its index.
#[derive(Clone, Copy)]
struct RefusedCase {
    refusal: Refusal,
    index: usize,
}

// The first case that is refused. No layer is read.
fn first_refused(
    code: u32,
    design_wavelength_nm: f64,
    n_incident: f64,
    n_substrate: f64,
    angles_rad: &[f64],
    wavelengths_nm: &[f64],
    layers: &[f64],
) -> Result<(), RefusedCase>
    requires { length angles_rad.now ≡ length wavelengths_nm.now }
    ensures { all_answered result ≡ refusal_of_all (cases code design_wavelength_nm n_incident n_substrate angles_rad.now wavelengths_nm.now layers.now) }
{
    for i in 0..angles_rad.len() {
        if let Err(refusal) = c_layers::check(
            code,
            design_wavelength_nm,
            n_incident,
            n_substrate,
            angles_rad[i],
            wavelengths_nm[i],
            layers,
        ) {
            return Err(RefusedCase { refusal, index: i });
        }
    }
    Ok(())
}

// The numbers of one case at a place of a list that has room for them; nothing where it is refused.
fn place_case(
    at: usize,
    code: u32,
    design_wavelength_nm: f64,
    n_incident: f64,
    n_substrate: f64,
    angle_incident_rad: f64,
    wavelength_nm: f64,
    layers: &[f64],
    list: &mut [f64],
)
    requires { at + 16 ≤ length list.old }
    ensures { list.new ≡ placed at (evaluate code design_wavelength_nm n_incident n_substrate angle_incident_rad wavelength_nm layers.now) list.old }
{
    match c_layers::evaluate(
        code,
        design_wavelength_nm,
        n_incident,
        n_substrate,
        angle_incident_rad,
        wavelength_nm,
        layers,
    ) {
        Ok(r) => {
            let _wrote = c_call::put_response(r, &mut list[at..]);
        }
        Err(_) => {}
    }
}

// The numbers of all cases, none of which is refused, at the front of a list that has room for them.
fn place(
    code: u32,
    design_wavelength_nm: f64,
    n_incident: f64,
    n_substrate: f64,
    angles_rad: &[f64],
    wavelengths_nm: &[f64],
    layers: &[f64],
    list: &mut [f64],
)
    requires { Room (cases code design_wavelength_nm n_incident n_substrate angles_rad.now wavelengths_nm.now layers.now) angles_rad.now wavelengths_nm.now list.old }
    ensures { list.new ≡ numbers_of (cases code design_wavelength_nm n_incident n_substrate angles_rad.now wavelengths_nm.now layers.now) ++ drop (16 * length angles_rad.now) list.old }
{
    for i in 0..angles_rad.len() {
        place_case(
            16 * i,
            code,
            design_wavelength_nm,
            n_incident,
            n_substrate,
            angles_rad[i],
            wavelengths_nm[i],
            layers,
            list,
        );
    }
}

// The cases of lists of equal length: refused, or written.
fn paired(
    code: u32,
    design_wavelength_nm: f64,
    n_incident: f64,
    n_substrate: f64,
    angles_rad: &[f64],
    wavelengths_nm: &[f64],
    layers: &[f64],
    list: &mut [f64],
) -> u64
    requires { (length angles_rad.now ≡ length wavelengths_nm.now) × (length angles_rad.now < 0x1000_0000) }
    ensures { done result list.new ≡ answered scanned (cases code design_wavelength_nm n_incident n_substrate angles_rad.now wavelengths_nm.now layers.now) list.old }
{
    if let Err(first) = first_refused(
        code,
        design_wavelength_nm,
        n_incident,
        n_substrate,
        angles_rad,
        wavelengths_nm,
        layers,
    ) {
        return c_call::packed_at(first.refusal, first.index);
    }
    let count = 16 * angles_rad.len();
    if list.len() < count {
        return 0x8_0000_0000;
    }
    place(
        code,
        design_wavelength_nm,
        n_incident,
        n_substrate,
        angles_rad,
        wavelengths_nm,
        layers,
        list,
    );
    count as u64
}

// SurfaceCoating::evaluate at angles_rad[i] and wavelengths_nm[i] for each i: 16 numbers of one response after the
// other at the front of a list. Returns the count of these numbers, or a refusal: 1 for lists of unequal length,
// that of the first case that is refused, with its index as the place, then 8 for a list that is too short.
pub fn evaluate_list(
    code: u32,
    design_wavelength_nm: f64,
    n_incident: f64,
    n_substrate: f64,
    angles_rad: &[f64],
    wavelengths_nm: &[f64],
    layers: &[f64],
    list: &mut [f64],
) -> u64
    ensures { done result list.new ≡ answered scanned (evaluate_list code design_wavelength_nm n_incident n_substrate angles_rad.now wavelengths_nm.now layers.now) list.old }
{
    if angles_rad.len() != wavelengths_nm.len() {
        return c_call::packed_at(Refusal::InvalidParameter, NO_CASE);
    }
    if angles_rad.len() >= 0x1000_0000 {
        return c_call::packed_at(Refusal::InvalidParameter, NO_CASE);
    }
    paired(
        code,
        design_wavelength_nm,
        n_incident,
        n_substrate,
        angles_rad,
        wavelengths_nm,
        layers,
        list,
    )
}

// ---- which argument

// The first argument of evaluate that fails a test of the Rust's, in their order: 1 n_incident, 2 n_substrate, 3 the
// angle, 4 the wavelength; 0 where none fails.
pub fn invalid_argument(
    n_incident: f64,
    n_substrate: f64,
    angle_incident_rad: f64,
    wavelength_nm: f64,
) -> u64
    ensures { result ≡ invalid_argument n_incident n_substrate angle_incident_rad wavelength_nm }
{
    if !ieee::finite_positive(n_incident) {
        return 1;
    }
    if !ieee::finite_positive(n_substrate) {
        return 2;
    }
    if !ieee::is_finite(angle_incident_rad) {
        return 3;
    }
    if !ieee::finite_positive(wavelength_nm) {
        return 4;
    }
    0
}
