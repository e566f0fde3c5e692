// One literal more, or the last one less.
ghost use Rattle.std.specs.Prelude.{◌≤◌, take};
ghost use Rattle.theory.specs.Record.{among};
ghost use Rattle.theory.specs.Grown.{put};
ghost use Rattle.counted.specs.Inner.State.{SetFrom};
ghost use Rattle.counted.specs.Inner.Entry.{Setting, Unsetting, Taking};

use crate::fixed::Fixed;
use crate::numbers::Numbers;
use crate::walk::{Bounds, renumber};
use formula::{LITERAL_PLACES, MIDDLE, place};

// A literal moves no number of true literals at its opposite's clauses.
const NONE: Numbers = Numbers { trues: 0, opens: 0 };

// The tables and the numbers with one literal more. Its clauses have one more true literal; if it is existential they and its
// opposite's have an open one less. Of a universal literal the opposite's clauses are gone through too: one may have become a unit clause.
pub(crate) fn count_entry(
    word: i32,
    fixed: &Fixed,
    statuses: &mut [u8; LITERAL_PLACES],
    trues: &mut [u32],
    opens: &mut [u32],
    bounds: Bounds,
) -> Bounds
    requires { Setting word fixed.now.stops.now fixed.now.index.now statuses.old trues.old opens.old bounds }
    ensures { (x : Setting word fixed.now.stops.now fixed.now.index.now statuses.old trues.old opens.old bounds) → SetFrom x.p x.m (put word x.ρ) trues.old opens.old statuses.new trues.new opens.new result }
{
    let own = place(word);
    let other = 2 * MIDDLE - own;
    let came = Numbers { trues: 1, opens: 0 };
    let gone = Numbers {
        trues: 0,
        opens: u32::from(statuses[own] == 2),
    };
    statuses[own] = 1;
    statuses[other] = 0;
    let half = renumber(fixed.part(own), came, gone, trues, opens, bounds);
    renumber(fixed.part(other), NONE, gone, trues, opens, half)
}

// The tables and the numbers with the last literal taken back.
pub(crate) fn uncount_entry(
    word: i32,
    fixed: &Fixed,
    statuses: &mut [u8; LITERAL_PLACES],
    trues: &mut [u32],
    opens: &mut [u32],
    bounds: Bounds,
) -> Bounds
    requires { Unsetting word fixed.now.stops.now fixed.now.index.now fixed.now.quantifiers.now statuses.old trues.old opens.old bounds }
    ensures { (x : Unsetting word fixed.now.stops.now fixed.now.index.now fixed.now.quantifiers.now statuses.old trues.old opens.old bounds) → SetFrom x.p x.m x.ρ trues.old opens.old statuses.new trues.new opens.new result }
{
    let own = place(word);
    let other = 2 * MIDDLE - own;
    let quantifier = fixed.quantifiers[words::size(word)];
    let came = Numbers {
        trues: 0,
        opens: u32::from(quantifier == 1),
    };
    let gone = Numbers { trues: 1, opens: 0 };
    statuses[own] = quantifier + 1;
    statuses[other] = quantifier + 1;
    let half = renumber(fixed.part(own), came, gone, trues, opens, bounds);
    renumber(fixed.part(other), came, NONE, trues, opens, half)
}

// The last entries of a record taken back, down to the one at `at`.
pub(crate) fn uncount_entries(
    lits: &[i32],
    at: usize,
    count: usize,
    fixed: &Fixed,
    statuses: &mut [u8; LITERAL_PLACES],
    trues: &mut [u32],
    opens: &mut [u32],
    was: Bounds,
) -> Bounds
    requires at_le_count { at ≤ count }
    requires taking { Taking lits.now count fixed.now.stops.now fixed.now.index.now fixed.now.quantifiers.now statuses.old trues.old opens.old was }
    ensures { (x : Taking lits.now count fixed.now.stops.now fixed.now.index.now fixed.now.quantifiers.now statuses.old trues.old opens.old was) → SetFrom x.p x.m (among (take at lits.now)) trues.old opens.old statuses.new trues.new opens.new result }
{
    let mut bounds = was;
    for i in (at..count).rev() {
        bounds = uncount_entry(lits[i], fixed, statuses, trues, opens, bounds);
    }
    bounds
}
