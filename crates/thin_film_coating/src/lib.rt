// A coating of thin_film.rs beside a list of its layers: how it is built, and its response at a
// wavelength and an angle of incidence.
#![tactic(auto)]

ghost use Rattle.std.specs.Prelude.{◌≡◌, [], ◌∷◌, ◌≤◌, Ok};
ghost use Rattle.thin_film_solver.specs.Internal.{solved};
ghost use Rattle.thin_film_layers.specs.Evaluation.{ordered};
ghost use Rattle.thin_film_layers.specs.declared.Prepared.TheVariants as P;
ghost use Rattle.thin_film_coating.specs.Coating.{listed, built, too_many, quarter_wave_ar, bragg_mirror};
ghost use Rattle.thin_film_coating.specs.Evaluate.{evaluate_coating};
ghost use Rattle.thin_film_coating.specs.Internal.{prepare};
ghost use Rattle.thin_film_coating.specs.declared.Coating.TheVariants as C;
ghost use Rattle.refusal.specs.Outcome.{outcome};

use refusal::Refusal;
use thin_film_layers::Prepared;
use thin_film_solver::{CoatingResponse, Incidence, ThinFilmLayer};

// A coating. The layers of Multilayer are the list beside it, from the incident medium to the
// substrate.
#[derive(Clone, Copy)]
pub enum Coating {
    IdealAr,
    IdealMirror,
    IdealBeamsplitter,
    Multilayer,
}

// Layers: the first count of the places hold them. More than 64 are none that can be evaluated.
#[derive(Clone, Copy)]
pub struct Layers {
    pub items: [ThinFilmLayer; 64],
    pub count: usize,
}

// A coating with its layers; or a refusal's number, which is 0 where there is none. Beside a refusal
// stand more layers than there are places, so that its evaluation is refused with 3.
#[derive(Clone, Copy)]
pub struct Built {
    pub refusal: u32,
    pub coating: Coating,
    pub layers: Layers,
}

impl Coating {
    // A single quarter-wave layer of index sqrt(n_ambient * n_substrate).
    pub fn quarter_wave_ar(n_ambient: f64, n_substrate: f64, design_wavelength_nm: f64) -> Built
        ensures { result ≡ quarter_wave_ar n_ambient n_substrate design_wavelength_nm }
    {
        let n_opt = math_sqrt::sqrt(n_ambient * n_substrate);
        single(thin_film_presets::quarter_wave(n_opt, design_wavelength_nm))
    }

    // (H L)^pairs H, a quarter wave each. More than 31 pairs are refused with 3.
    pub fn bragg_mirror(n_high: f64, n_low: f64, pairs: usize, design_wavelength_nm: f64) -> Built
        ensures { result ≡ bragg_mirror n_high n_low pairs design_wavelength_nm }
    {
        if pairs > 31 {
            return too_many();
        }
        let count = pairs * 2 + 1;
        let mut items = thin_film_presets::no_layers();
        for i in 0..count {
            items[i] = thin_film_presets::bragg(n_high, n_low, design_wavelength_nm, i);
        }
        Built {
            refusal: 0,
            coating: Coating::Multilayer,
            layers: Layers { items, count },
        }
    }

    // The response of this coating, beside its layers.
    pub fn evaluate(
        self,
        layers: &[ThinFilmLayer],
        n_incident: f64,
        n_substrate: f64,
        angle_incident_rad: f64,
        wavelength_nm: f64,
    ) -> Result<CoatingResponse, Refusal>
        ensures { outcome result ≡ evaluate_coating self layers.now n_incident n_substrate angle_incident_rad wavelength_nm }
    {
        thin_film_layers::evaluate_list(
            layers,
            prepare(
                self,
                false,
                layers.len(),
                n_incident,
                n_substrate,
                angle_incident_rad,
                wavelength_nm,
            ),
        )
    }
}

impl Built {
    // The response of this coating with its own layers.
    pub fn evaluate(
        self,
        n_incident: f64,
        n_substrate: f64,
        angle_incident_rad: f64,
        wavelength_nm: f64,
    ) -> Result<CoatingResponse, Refusal>
        ensures { outcome result ≡ evaluate_coating self.coating (listed self.layers) n_incident n_substrate angle_incident_rad wavelength_nm }
    {
        let coating = self.coating;
        let layers = self.layers;
        evaluate_layers(
            coating,
            layers,
            n_incident,
            n_substrate,
            angle_incident_rad,
            wavelength_nm,
        )
    }
}

// The response with the first count of 64 layers, in their order or reversed.
fn solve_places(
    items: [ThinFilmLayer; 64],
    count: usize,
    reversed: bool,
    light: Incidence,
) -> CoatingResponse
    requires { count ≤ 64 }
    ensures { result ≡ solved light (ordered reversed (listed (record { items = items; count = count }))) }
{
    let mut ms = thin_film_matrix::identity();
    let mut mp = thin_film_matrix::identity();
    for i in 0..count {
        let j = thin_film_layers::nth_index(reversed, count, i);
        let terms = thin_film_solver::terms_of(light, items[j]);
        let next_s = thin_film_solver::step_s(ms, terms);
        let next_p = thin_film_solver::step_p(mp, terms);
        ms = next_s;
        mp = next_p;
    }
    thin_film_solver::finish(light, ms, mp)
}

// Coating::evaluate on layers by value. More than 64 are refused with 3.
pub fn evaluate_layers(
    coating: Coating,
    layers: Layers,
    n_incident: f64,
    n_substrate: f64,
    angle_incident_rad: f64,
    wavelength_nm: f64,
) -> Result<CoatingResponse, Refusal>
    ensures { outcome result ≡ evaluate_coating coating (listed layers) n_incident n_substrate angle_incident_rad wavelength_nm }
{
    let count = layers.count;
    match prepare(
        coating,
        false,
        count,
        n_incident,
        n_substrate,
        angle_incident_rad,
        wavelength_nm,
    ) {
        Prepared::Answered(answer) => answer,
        Prepared::Layers { reversed, light } => {
            let items = layers.items;
            Ok(solve_places(items, count, reversed, light))
        }
    }
}

// A refusal with 3.
pub fn too_many() -> Built
    ensures { result ≡ too_many }
{
    let items = thin_film_presets::no_layers();
    Built {
        refusal: 3,
        coating: Coating::Multilayer,
        layers: Layers { items, count: 65 },
    }
}

// One layer alone.
pub fn single(layer: ThinFilmLayer) -> Built
    ensures { result ≡ built C.Multilayer (layer ∷ []) }
{
    let mut items = thin_film_presets::no_layers();
    items[0] = layer;
    Built {
        refusal: 0,
        coating: Coating::Multilayer,
        layers: Layers { items, count: 1 },
    }
}

pub fn without_layers(coating: Coating) -> Built
    ensures { result ≡ built coating [] }
{
    let items = thin_film_presets::no_layers();
    Built {
        refusal: 0,
        coating,
        layers: Layers { items, count: 0 },
    }
}

// The one place that says which layers an evaluation reads, from which end, and what is refused:
// Coating::evaluate, up to the layers beside the coating, of which there are count.
pub fn prepare(
    coating: Coating,
    reversed: bool,
    count: usize,
    n_incident: f64,
    n_substrate: f64,
    angle_incident_rad: f64,
    wavelength_nm: f64,
) -> Prepared
    ensures { result ≡ prepare coating reversed count n_incident n_substrate angle_incident_rad wavelength_nm }
{
    if !thin_film_valid::valid(n_incident, n_substrate, angle_incident_rad, wavelength_nm) {
        return Prepared::Answered(Err(Refusal::InvalidParameter));
    }
    match coating {
        Coating::IdealAr => answered(thin_film_valid::ideal_ar()),
        Coating::IdealMirror => answered(thin_film_valid::ideal_mirror()),
        Coating::IdealBeamsplitter => answered(thin_film_valid::ideal_beamsplitter()),
        Coating::Multilayer => {
            if count > 64 {
                return Prepared::Answered(Err(Refusal::TooManyLayers));
            }
            let light = Incidence::new(n_incident, n_substrate, angle_incident_rad, wavelength_nm);
            Prepared::Layers { reversed, light }
        }
    }
}

// An evaluation whose response needs no layer beside the coating.
pub fn answered(response: CoatingResponse) -> Prepared
    ensures { result ≡ P.Answered (Ok response) }
{
    Prepared::Answered(Ok(response))
}
