// A walk over the clauses that hold a literal: their numbers move, and the bounds are lowered.
ghost use Rattle.std.specs.Prelude.{[]};
ghost use Rattle.counted.specs.Inner.Walk.{Lowered, Movable, Renumbered};

use crate::numbers::{Numbers, key};

// No clause below `conflict` is in conflict, and none below `unit` is a unit clause.
#[derive(Clone, Copy)]
pub(crate) struct Bounds {
    pub(crate) conflict: usize,
    pub(crate) unit: usize,
}

impl Bounds {
    // The bounds once clause c has a key.
    fn lowered(self, c: usize, key: usize) -> Bounds
        ensures { Lowered self c key result }
    {
        match key {
            0 => Bounds {
                conflict: self.conflict.min(c),
                ..self
            },
            1 => Bounds {
                unit: self.unit.min(c),
                ..self
            },
            _ => self,
        }
    }
}

// The clauses of the list have `more` true and open literals more and `less` of them less.
pub(crate) fn renumber(
    list: &[u32],
    more: Numbers,
    less: Numbers,
    trues: &mut [u32],
    opens: &mut [u32],
    was: Bounds,
) -> Bounds
    requires of_trues { Movable more.trues less.trues list.now trues.old }
    requires of_opens { Movable more.opens less.opens list.now opens.old }
    ensures { Renumbered more less list.now trues.old opens.old was [] trues.new opens.new result }
{
    let mut bounds = was;
    for c in list {
        let c = *c as usize;
        let t = trues[c] + more.trues - less.trues;
        let o = opens[c] + more.opens - less.opens;
        trues[c] = t;
        opens[c] = o;
        bounds = bounds.lowered(c, key(t, o));
    }
    bounds
}
