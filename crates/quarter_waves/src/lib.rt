// Document 02, slip 11: the path n * thickness of a film in whole quarter waves, and what is over.
#![tactic(auto)]

ghost use Rattle.std.specs.Prelude.{◌≡◌};
ghost use Rattle.quarter_waves.specs.Waves.{admitted, divided, quarter_waves};
ghost use Rattle.quarter_waves.specs.Internal.{Divides};
ghost use Rattle.refusal.specs.Outcome.{outcome};

use refusal::Refusal;

// So many whole quarter waves, and the length that is over.
#[derive(Clone, Copy)]
pub struct QuarterWaves {
    pub count: u32,
    pub remainder_nm: f64,
}

// The limits of document 01's section 3, ends included: of a layer's index and thickness, and of a
// wavelength.
fn admitted(n: f64, thickness_nm: f64, wavelength_nm: f64) -> bool
    ensures { result ≡ admitted n thickness_nm wavelength_nm }
{
    gate_limits::within(1.0, 4.0, n)
        && (gate_limits::within(0.0, 100000.0, thickness_nm)
            && gate_limits::within(100.0, 10000.0, wavelength_nm))
}

// How often q goes into p, by halves: first how often 2q does, then whether once more. No operation
// rounds: what is over is below 2q, so that q can be taken from it exactly.
pub(crate) fn divided(p: f64, q: f64) -> QuarterWaves
    requires { Divides p q }
    ensures { result ≡ divided p q }
{
    if p < q {
        return QuarterWaves {
            count: 0,
            remainder_nm: p,
        };
    }
    let pairs = divided(p, q + q);
    let over = pairs.remainder_nm;
    if over < q {
        QuarterWaves {
            count: 2 * pairs.count,
            remainder_nm: over,
        }
    } else {
        QuarterWaves {
            count: 2 * pairs.count + 1,
            remainder_nm: over - q,
        }
    }
}

// n * thickness in quarters of the wavelength; 14 where one of the three is outside its limits.
pub fn quarter_waves(n: f64, thickness_nm: f64, wavelength_nm: f64) -> Result<QuarterWaves, Refusal>
    ensures { outcome result ≡ quarter_waves n thickness_nm wavelength_nm }
{
    if admitted(n, thickness_nm, wavelength_nm) {
        let p = ieee::abs(n * thickness_nm);
        Ok(divided(p, wavelength_nm / 4.0))
    } else {
        Err(Refusal::Film)
    }
}
