// to_coating: the layers of a coating in 64 places.
ghost use Rattle.std.specs.Prelude.{◌≡◌};
ghost use Rattle.thin_film_presets.specs.Layers.{broadband_layers};
ghost use Rattle.thin_film_coating.specs.Coating.{built};
ghost use Rattle.thin_film_coating.specs.declared.Coating.TheVariants as C;
ghost use Rattle.thin_film.specs.Coating.{to_coating};
ghost use Rattle.thin_film.specs.declared.SurfaceCoating.TheVariants as S;

use thin_film_coating::{Built, Coating, Layers};

// The four layers of the broadband coating.
pub fn broadband_ar() -> Built
    ensures { result ≡ built C.Multilayer broadband_layers }
{
    let mut items = thin_film_presets::no_layers();
    items[0] = thin_film_presets::broadband(0);
    items[1] = thin_film_presets::broadband(1);
    items[2] = thin_film_presets::broadband(2);
    items[3] = thin_film_presets::broadband(3);
    Built {
        refusal: 0,
        coating: Coating::Multilayer,
        layers: Layers { items, count: 4 },
    }
}

// A user's coating, beside its layers.
pub fn custom_coating(coating: Coating, custom: Layers) -> Built
    ensures { result ≡ to_coating (S.Custom coating) custom }
{
    match coating {
        Coating::Multilayer => {
            if custom.count <= 64 {
                Built {
                    refusal: 0,
                    coating: Coating::Multilayer,
                    layers: custom,
                }
            } else {
                thin_film_coating::too_many()
            }
        }
        Coating::IdealAr => thin_film_coating::without_layers(Coating::IdealAr),
        Coating::IdealMirror => thin_film_coating::without_layers(Coating::IdealMirror),
        Coating::IdealBeamsplitter => thin_film_coating::without_layers(Coating::IdealBeamsplitter),
    }
}
