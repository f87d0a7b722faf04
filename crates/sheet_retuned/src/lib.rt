// Document 02, slip 5: the answers of a sheet's surface where the train is retuned right before it is stepped. The call is
// handed the sheet's bytes and gates them anew.
#![tactic(auto)]

ghost use Rattle.std.specs.Prelude.{◌≡◌};
ghost use Rattle.refusal.specs.Outcome.{outcome};
ghost use Rattle.sheet_retuned.specs.Retuned.{answers_at};

use refusal::Refusal;
use surface::Answers;

// Of the i-th surface, counted from 0: at the wavelength of the retune, or at that of a kind 7 before the surface.
pub fn answers_at(src: &[u8], i: u32, wavelength_nm: f64) -> Result<Answers, Refusal>
    ensures { outcome result ≡ answers_at src.now i wavelength_nm }
{
    let count = gate::gate(src)?;
    if i >= count {
        return Err(Refusal::NoSurface);
    }
    if !gate::holds(src, i, count, wavelength_nm) {
        return Err(Refusal::Wavelength);
    }
    let begin = sheet::begin_of(src, i);
    let met_nm = sheet_values::met_with(src, begin, wavelength_nm);
    sheet_surfaces::answers_met(src, sheet::onto(src, begin), met_nm)
}
