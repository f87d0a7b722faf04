// What a call is turned back for: document 01's table 'Turned back' and the change requests of document 02. Each case has a
// number there, and most that can be at several places have a place.
#![tactic(auto)]

ghost use Rattle.std.specs.Prelude.{◌≡◌};
ghost use Rattle.refusal.specs.Outcome.{number_of, place_of};

#[derive(Clone, Copy, Debug, PartialEq, Eq)]
pub enum Refusal {
    // The only case of error.rs that arises.
    InvalidParameter,
    // A name over 32 bytes, at 32, or the place of its first byte that is not ASCII.
    Name(usize),
    // More than 64 explicit layers, or more than 31 pairs.
    TooManyLayers,
    // A sheet's length.
    Length,
    // The first word of a sheet out of its grammar.
    Grammar(usize),
    // The word of a sheet's first block outside the limits.
    Limits(usize),
    // A surface past the last.
    NoSurface,
    // A list or an output that is too short.
    TooShort,
    // The first byte that no text of a stack could have there; 255 for a text over 255 bytes.
    Text(usize),
    // More than 64 layers of a stack.
    TooManyFilms,
    // A wavelength that a train does not take.
    Wavelength,
    // The word of a sheet's first kind 7, where none is taken.
    Tuning(usize),
    // A low end above its high end, or an end that is NaN or outside 1 to 4.
    Range,
    // A film or a wavelength outside the limits.
    Film,
    // The first line of a band whose weight is outside; 64 for no lines, too many or lists of unequal length.
    Weight(usize),
    // The first line of a band whose wavelength the gate refuses.
    Line(usize),
}

impl Refusal {
    // The number of the table.
    pub fn number(self) -> u32
        ensures { result ≡ number_of self }
    {
        match self {
            Refusal::InvalidParameter => 1,
            Refusal::Name(_) => 2,
            Refusal::TooManyLayers => 3,
            Refusal::Length => 4,
            Refusal::Grammar(_) => 5,
            Refusal::Limits(_) => 6,
            Refusal::NoSurface => 7,
            Refusal::TooShort => 8,
            Refusal::Text(_) => 9,
            Refusal::TooManyFilms => 10,
            Refusal::Wavelength => 11,
            Refusal::Tuning(_) => 12,
            Refusal::Range => 13,
            Refusal::Film => 14,
            Refusal::Weight(_) => 15,
            Refusal::Line(_) => 16,
        }
    }

    // The place, 0 where the table gives none.
    pub fn place(self) -> usize
        ensures { result ≡ place_of self }
    {
        match self {
            Refusal::Name(place) => place,
            Refusal::Grammar(place) => place,
            Refusal::Limits(place) => place,
            Refusal::Text(place) => place,
            Refusal::Tuning(place) => place,
            Refusal::Weight(place) => place,
            Refusal::Line(place) => place,
            _ => 0,
        }
    }
}
