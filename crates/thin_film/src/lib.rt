// Optical coatings of thin_film.rs as they are ordered: what they are made of, and their response at a
// wavelength and an angle of incidence. A list of layers stands beside the enum that speaks of it.
#![tactic(auto)]

ghost use Rattle.std.specs.Prelude.{◌≡◌};
ghost use Rattle.thin_film.specs.Coating.{mgf2_default, to_coating, label, text};
ghost use Rattle.thin_film.specs.Evaluate.{evaluate_surface};
ghost use Rattle.refusal.specs.Outcome.{outcome};

use refusal::Refusal;
use thin_film_coating::{Built, Coating, Layers};
use thin_film_solver::{CoatingResponse, ThinFilmLayer};

mod presets;
pub mod reading;

// A coating as it is ordered. The layers of Custom(Multilayer) are the list beside it.
#[derive(Clone, Copy)]
pub enum SurfaceCoating {
    IdealAr,
    MgF2 { design_wavelength_nm: f64 },
    BroadbandAr,
    HighReflectanceMirror,
    Custom(Coating),
}

// A short text: the first len bytes.
#[derive(Clone, Copy)]
pub struct Text {
    pub bytes: [u8; 16],
    pub len: usize,
}

impl SurfaceCoating {
    // A quarter wave of magnesium fluoride at 550 nm.
    pub fn mgf2_default() -> Self
        ensures { result ≡ mgf2_default }
    {
        SurfaceCoating::MgF2 {
            design_wavelength_nm: 550.0,
        }
    }

    // The coating with its layers; custom are those of Custom(Multilayer).
    pub fn to_coating(self, custom: Layers, _n_substrate: f64) -> Built
        ensures { result ≡ to_coating self custom }
    {
        match self {
            SurfaceCoating::IdealAr => thin_film_coating::without_layers(Coating::IdealAr),
            SurfaceCoating::MgF2 {
                design_wavelength_nm,
            } => thin_film_coating::single(thin_film_presets::quarter_wave(
                1.38,
                design_wavelength_nm,
            )),
            SurfaceCoating::BroadbandAr => presets::broadband_ar(),
            SurfaceCoating::HighReflectanceMirror => Coating::bragg_mirror(2.30, 1.46, 7, 550.0),
            SurfaceCoating::Custom(c) => presets::custom_coating(c, custom),
        }
    }

    // Short technical display label, as UTF-8.
    pub fn label(self) -> Text
        ensures { result ≡ text (label self) }
    {
        match self {
            SurfaceCoating::IdealAr => Text {
                bytes: *b"Ideal AR\0\0\0\0\0\0\0\0",
                len: 8,
            },
            SurfaceCoating::MgF2 {
                design_wavelength_nm: _,
            } => Text {
                bytes: *b"MgF2 (\xCE\xBB/4)\0\0\0\0\0",
                len: 11,
            },
            SurfaceCoating::BroadbandAr => Text {
                bytes: *b"BBAR (Multi)\0\0\0\0",
                len: 12,
            },
            SurfaceCoating::HighReflectanceMirror => Text {
                bytes: *b"Mirror (99.9%)\0\0",
                len: 14,
            },
            SurfaceCoating::Custom(_) => Text {
                bytes: *b"Custom Stack\0\0\0\0",
                len: 12,
            },
        }
    }

    // The response of this coating; layers are those of Custom(Multilayer). They are reversed where
    // light goes from the denser medium to the rarer one.
    pub fn evaluate(
        self,
        layers: &[ThinFilmLayer],
        n_incident: f64,
        n_substrate: f64,
        angle_incident_rad: f64,
        wavelength_nm: f64,
    ) -> Result<CoatingResponse, Refusal>
        ensures { outcome result ≡ evaluate_surface self layers.now n_incident n_substrate angle_incident_rad wavelength_nm }
    {
        thin_film_layers::evaluate_list(
            layers,
            reading::prepare_surface(
                self,
                layers.len(),
                n_incident,
                n_substrate,
                angle_incident_rad,
                wavelength_nm,
            ),
        )
    }
}
