// Sheets whose layers pass at every wavelength: all are of kind 4, and within section 3's limits. A band tests them once.
ghost use Rattle.std.specs.Prelude.{◌≡◌, true, T, Float};
ghost use Rattle.sheet.specs.Internal.{layers_at, begin};
ghost use Rattle.gate.specs.Wavelength.{layers_admitted};
ghost use Rattle.gate.specs.Internal.{surface_holds_at, layers_hold_at};

// The n layers from a place on.
fn layers_steady(src: &[u8], at: usize, n: usize, snell: f64) -> bool
    ensures { T result → (w : Float) → layers_admitted w snell (layers_at src.now at n) ≡ true }
{
    let mut place = at;
    for _ in 0..n {
        if sheet::kind_at(src, place) == 6 {
            return false;
        }
        if !gate_limits::layer_within(snell, sheet_values::plain_at(src, place)) {
            return false;
        }
        place = sheet::next_place(src, place);
    }
    true
}

// The layers of the SURFACE at a place.
fn surface_steady(src: &[u8], at: usize) -> bool
    ensures { T result → (w : Float) → surface_holds_at src.now at w ≡ true }
{
    let judgement = gate_limits::judge_surface(sheet_values::surface_at(src, at));
    let n = sheet::layer_run(src, at);
    layers_steady(src, sheet::next_place(src, at), n, judgement.snell)
}

// Those of all of count SURFACEs.
pub(crate) fn steady(src: &[u8], count: u32) -> bool
    ensures { T result → (w : Float) → layers_hold_at count src.now (begin src.now 0) w ≡ true }
{
    let mut place = sheet::begin_of(src, 0);
    for _ in 0..count {
        if !surface_steady(src, place) {
            return false;
        }
        place = sheet::after_layers(src, place);
    }
    true
}
