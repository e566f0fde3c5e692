// The literals of an opening.
ghost use Rattle.std.specs.Prelude.{◌≡◌, ◌-◌, ◌<◌, ◌≤◌, ◌^◌, ◌/◌, ◌%◌, ◌==◌, length, pos, slice_index_or};
ghost use Rattle.formula.specs.Limits.{max_group};
ghost use Rattle.listing.specs.Opening.{value_at};

use formula::MAX_GROUP;
use std::fmt;

// [group.first] The first group, which is existential and has at most 20 variables where a page is accepted.
pub(crate) fn group(block: &[i32]) -> &[i32]
    ensures { length result.now ≤ max_group }
{
    let prefix = formula::prefix(block);
    words::take(prefix, listing::first_group(prefix).min(MAX_GROUP))
}

// An opening, by its number: printed as the literals that it gives to the first group, a line's 0 behind them.
#[derive(Clone, Copy)]
pub(crate) struct Opening<'a> {
    pub(crate) group: &'a [i32],
    pub(crate) number: u32,
    ghost within: { length group.now ≤ max_group },
}

impl Opening<'_> {
    // [opening.bits] The literal that it gives to the variable at an index of the first group, whose last one has the lowest bit.
    fn literal_at(&self, i: usize) -> i64
        requires { i < length self.now.group.now }
        ensures { result ≡ value_at self.now.number (length self.now.group.now - 1 - i) (slice_index_or self.now.group.now i (pos 0)) }
    {
        let variable = words::size(self.group[i]) as i64;
        let place = self.group.len() - 1 - i;
        if (self.number >> place) % 2 == 1 {
            variable
        } else {
            -variable
        }
    }
}

impl fmt::Display for Opening<'_> {
    fn fmt<W: fmt::Write>(&self, f: &mut fmt::Formatter<W>) -> fmt::Result {
        for i in 0..self.group.len() {
            write!(f, "{} ", self.literal_at(i))?;
        }
        f.write_str("0")
    }
}
