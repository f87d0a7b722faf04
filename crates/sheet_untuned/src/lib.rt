// A sheet without kind 7 (document 02, slips 6 and 14): the gate, then 12 with the word of the first kind 7.
#![tactic(auto)]

ghost use Rattle.std.specs.Prelude.{◌≡◌};
ghost use Rattle.refusal.specs.Outcome.{answer, map, outcome};
ghost use Rattle.sheet.specs.Sheet.{Sheet};
ghost use Rattle.sheet.specs.Read.{surfaces_of};
ghost use Rattle.gate.specs.Gate.{gated};
ghost use Rattle.sheet_untuned.specs.Untuned.{without_tuning};
ghost use Rattle.sheet_untuned.specs.Internal.{Looked};

use refusal::Refusal;

// The place of the first kind 7; past the last word where there is none.
fn first_tuning(src: &[u8]) -> usize
    ensures { (x : Sheet) → gated src.now ≡ answer x → Looked src.now x result }
{
    let total = src.len() / 4;
    let mut at: usize = 0;
    while at < total {
        if sheet::kind_at(src, at) == 7 {
            return at;
        }
        at = sheet::next_place(src, at);
    }
    at
}

// The count of surfaces of a sheet that is admitted and has no kind 7; or a refusal: 4, 5, 6, then 12.
pub fn without_tuning(src: &[u8]) -> Result<u32, Refusal>
    ensures { outcome result ≡ map surfaces_of (without_tuning src.now) }
{
    let count = gate::gate(src)?;
    let place = first_tuning(src);
    if place < src.len() / 4 {
        return Err(Refusal::Tuning(place));
    }
    Ok(count)
}
