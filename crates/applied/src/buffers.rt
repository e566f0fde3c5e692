// The record's two buffers: the cut, and the entry more.
ghost use Rattle.std.specs.Prelude.{◌≡◌, ◌+◌};
ghost use Rattle.record.specs.Search.{search, reached};
ghost use Rattle.record.specs.Inner.Ready.{Room};
ghost use Rattle.record.specs.Trail.{trail};
ghost use Rattle.record.specs.declared.rule.State.TheVariants.{Open};
ghost use Rattle.applied.specs.Promises.{AppendPromise};
ghost use Rattle.applied.specs.Inner.Fits.{Cuttable};
ghost use Rattle.applied.specs.Apply as spec;

use record::{Reached, State};
use words::Literal;

// Cuts the record at a place and puts the opposite there, kind 0.
pub(crate) fn flip(lits: &mut [i32], kinds: &mut [u8], count: usize, at: usize) -> Reached
    requires { Cuttable at count (trail lits.old kinds.old) }
    ensures { reached result (trail lits.new kinds.new) ≡ spec.flip at (search (trail lits.old kinds.old) count Open) }
{
    let opposite = words::opposite(lits[at]);
    record::wipe(lits, kinds, at + 1, count);
    lits[at] = opposite;
    kinds[at] = 0;
    Reached {
        count: at + 1,
        state: State::Open,
    }
}

// One entry more.
pub fn append(
    lits: &mut [i32],
    kinds: &mut [u8],
    count: usize,
    kind: u8,
    literal: Literal,
) -> Reached
    requires { Room (count + 1) (trail lits.old kinds.old) }
    ensures { AppendPromise (trail lits.old kinds.old) count kind literal result (trail lits.new kinds.new) }
{
    lits[count] = literal.0;
    kinds[count] = kind;
    Reached {
        count: count + 1,
        state: State::Open,
    }
}
