// The stack shorthand of coating makers, as (HL)^7 H: what its grammar has, one film of it.

// One film: letter 0, 1 or 2 is H, L or M. The multiplier is 0 where none is written.
#[derive(Clone, Copy)]
pub struct Film {
    pub letter: u8,
    pub multiplier: u8,
}
