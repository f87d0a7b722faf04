// The films that a text of the stack shorthand stands for: a machine that takes one byte after the
// other, and the films so far beside it.
#![tactic(auto)]

ghost use Rattle.std.specs.Prelude.{◌≡◌};
ghost use Rattle.refusal.specs.Outcome.{map, outcome};
ghost use Rattle.thin_film_grammar.specs.Reading.{reading};
ghost use Rattle.thin_film_reader.specs.Read.{placed, kept_films};

use films::Films;
use refusal::Refusal;
use thin_film_grammar::Film;

mod films;
mod machine;

// The films of a text: the first count of the places hold them.
#[derive(Clone, Copy)]
pub struct Reading {
    pub films: [Film; 64],
    pub count: usize,
}

// The films, unless there are more than 64.
fn counted(f: Films) -> Result<Reading, Refusal>
    ensures { outcome result ≡ kept_films f }
{
    let count = f.count;
    if count > 64 {
        return Err(Refusal::TooManyFilms);
    }
    let films = f.items;
    Ok(Reading { films, count })
}

// The films of a text. 9 with 255 for a text over 255 bytes, 9 with the first byte that no text of the
// grammar could have there, 9 with the length where the text stops early, 10 for more than 64 films.
pub fn read(text: &[u8]) -> Result<Reading, Refusal>
    ensures { outcome result ≡ map placed (reading text.now) }
{
    if text.len() > 255 {
        return Err(Refusal::Text(255));
    }
    let mut m = machine::begin();
    let mut f = films::no_films();
    for (i, byte) in text.iter().enumerate() {
        let next = machine::step(m, *byte);
        if machine::halted(next) {
            return Err(Refusal::Text(i));
        }
        f = films::take(f, m, *byte);
        m = next;
    }
    if !machine::whole(m) {
        return Err(Refusal::Text(text.len()));
    }
    counted(f)
}
