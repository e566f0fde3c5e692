// What the block alone decides: a search fills it once.
ghost use Rattle.std.specs.Prelude.{◌≡◌, ◌<◌};
ghost use Rattle.formula.specs.Inner.Places.{literal_places};
ghost use Rattle.counted.specs.Inner.Index.{start_at, part_at, Parts};

use formula::LITERAL_PLACES;
use record::PLACES;

// Each variable's level and its quantifier, and the index of the clauses by literal.
#[derive(Clone, Copy)]
pub(crate) struct Fixed<'a> {
    pub(crate) levels: &'a [u16; PLACES],
    pub(crate) quantifiers: &'a [u8; PLACES],
    pub(crate) index: &'a [u32],
    pub(crate) stops: &'a [u16; LITERAL_PLACES],
}

impl<'a> Fixed<'a> {
    // Where the part of a place begins.
    fn start_of(&self, p: usize) -> usize
        requires { p < literal_places }
        ensures { result ≡ start_at self.now.stops.now p }
    {
        if p == 0 {
            0
        } else {
            self.stops[p - 1] as usize
        }
    }

    // The clauses that hold the literal at a place.
    pub(crate) fn part(&self, p: usize) -> &'a [u32]
        requires p_lt_literal_places { p < literal_places }
        requires parts { Parts self.now.stops.now self.now.index.now }
        ensures { result.now ≡ part_at self.now.stops.now self.now.index.now p }
    {
        &self.index[self.start_of(p)..self.stops[p] as usize]
    }
}
