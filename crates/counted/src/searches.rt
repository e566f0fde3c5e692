// A counted search: rule after rule on checked input. After each one only the clauses that hold a changed variable are gone through.
ghost use Rattle.std.specs.Prelude.{◌≡◌, length, take, drop};
ghost use Rattle.formula.specs.Formula.{literals_of};
ghost use Rattle.theory.specs.Record.{among};
ghost use Rattle.memory.specs.Memory.{memory};
ghost use Rattle.counted.specs.Inner.State.{SetFrom};
ghost use Rattle.counted.specs.Inner.Standing.{kept_by, Standing, Roomy};
ghost use Rattle.counted.specs.Inner.Search.{Recounting, counted_to, Advanced, SearchedTo};

use crate::decided::enact;
use crate::due::due;
use crate::entry::{count_entry, uncount_entries};
use crate::fixed::Fixed;
use crate::index::enter_clauses;
use crate::numbers::fill_numbers;
use crate::walk::Bounds;
use formula::LITERAL_PLACES;
use record::{Reached, Rule, State};
use search::Searched;

// Where one step leads, its reason, and the bounds after it.
#[derive(Clone, Copy)]
pub(crate) struct Next {
    reached: Reached,
    reason: u32,
    bounds: Bounds,
}

// How many entries a rule leaves as they are.
fn kept_by(rule: Rule, count: usize) -> usize
    ensures { result ≡ kept_by rule count }
{
    match rule {
        Rule::BacktrackExists { at, .. } | Rule::BacktrackForall { at } => at,
        _ => count,
    }
}

// Counts the entry at a place, unless the search has ended and there is none.
fn recount(
    lits: &[i32],
    at: usize,
    state: State,
    fixed: &Fixed,
    statuses: &mut [u8; LITERAL_PLACES],
    trues: &mut [u32],
    opens: &mut [u32],
    bounds: Bounds,
) -> Bounds
    requires { Recounting lits.now at state fixed.now.stops.now fixed.now.index.now statuses.old trues.old opens.old bounds }
    ensures { (x : Recounting lits.now at state fixed.now.stops.now fixed.now.index.now statuses.old trues.old opens.old bounds) → SetFrom x.p x.m (among (take (counted_to at state) lits.now)) trues.old opens.old statuses.new trues.new opens.new result }
{
    if search::is_over(state) {
        return bounds;
    }
    count_entry(lits[at], fixed, statuses, trues, opens, bounds)
}

// One accepted step. The entries that go are taken back from the last on, then the rule is applied, and the entry that it makes is counted.
fn advance(
    block: &[i32],
    lits: &mut [i32],
    kinds: &mut [u8],
    reasons: &mut [u32],
    count: usize,
    preferred: &[i32],
    fixed: &Fixed,
    statuses: &mut [u8; LITERAL_PLACES],
    trues: &mut [u32],
    opens: &mut [u32],
    was: Bounds,
) -> Next
    requires { Standing block.now (memory lits.old kinds.old reasons.old) count fixed.now.levels.now fixed.now.quantifiers.now fixed.now.stops.now fixed.now.index.now statuses.old trues.old opens.old was }
    ensures { Advanced block.now (memory lits.old kinds.old reasons.old) count preferred.now trues.old opens.old (memory lits.new kinds.new reasons.new) result statuses.new trues.new opens.new }
{
    let found = due(block, kinds, count, fixed, statuses, trues, opens, was);
    let rule = found.rule;
    let looked = found.bounds;
    let reason = memory::tell(reasons, rule, count);
    let at = kept_by(rule, count);
    let cut = uncount_entries(lits, at, count, fixed, statuses, trues, opens, looked);
    let reached = enact(block, lits, kinds, count, rule, preferred, fixed, statuses);
    let state = reached.state;
    let bounds = recount(lits, at, state, fixed, statuses, trues, opens, cut);
    Next {
        reached,
        reason,
        bounds,
    }
}

// At most `budget` steps from an open search, on the tables of its block and its record.
fn go_on(
    block: &[i32],
    lits: &mut [i32],
    kinds: &mut [u8],
    reasons: &mut [u32],
    count: usize,
    budget: u32,
    preferred: &[i32],
    fixed: &Fixed,
    statuses: &mut [u8; LITERAL_PLACES],
    trues: &mut [u32],
    opens: &mut [u32],
    was: Bounds,
) -> Searched
    requires { Standing block.now (memory lits.old kinds.old reasons.old) count fixed.now.levels.now fixed.now.quantifiers.now fixed.now.stops.now fixed.now.index.now statuses.old trues.old opens.old was }
    ensures { SearchedTo block.now (memory lits.old kinds.old reasons.old) count budget preferred.now trues.old opens.old (memory lits.new kinds.new reasons.new) result trues.new opens.new }
{
    let mut at = Reached {
        count,
        state: State::Open,
    };
    let mut bounds = was;
    let mut reason = 0;
    for steps in 0..budget {
        if search::is_over(at.state) {
            return Searched {
                reached: at,
                steps,
                reason,
            };
        }
        let next = advance(
            block, lits, kinds, reasons, at.count, preferred, fixed, statuses, trues, opens, bounds,
        );
        at = next.reached;
        reason = next.reason;
        bounds = next.bounds;
    }
    Searched {
        reached: at,
        steps: budget,
        reason,
    }
}

// The same from the record and the block alone: the tables are filled first. They lie on the stack only while it runs, and not beside what the call's
// rows need.
#[inline(never)]
pub(crate) fn search(
    block: &[i32],
    lits: &mut [i32],
    kinds: &mut [u8],
    reasons: &mut [u32],
    trues: &mut [u32],
    opens: &mut [u32],
    index: &mut [u32],
    count: usize,
    budget: u32,
    preferred: &[i32],
) -> Searched
    requires { Roomy block.now (memory lits.old kinds.old reasons.old) count trues.old opens.old index.old }
    ensures { SearchedTo block.now (memory lits.old kinds.old reasons.old) count budget preferred.now trues.old opens.old (memory lits.new kinds.new reasons.new) result trues.new opens.new × (drop (length (literals_of block.now)) index.new ≡ drop (length (literals_of block.now)) index.old) }
{
    let prefix = formula::prefix(block);
    let ends = formula::ends(block);
    let literals = formula::literals(block);
    let levels = tables::levels(block);
    let quantifiers = record::values_of(prefix, prefix.len());
    let values = record::values_of(lits, count);
    let mut statuses = [0u8; LITERAL_PLACES];
    tables::fill(prefix, &values, &mut statuses);
    let stops = enter_clauses(ends, literals, index);
    fill_numbers(ends, literals, &statuses, trues, opens);
    let fixed = Fixed {
        levels: &levels,
        quantifiers: &quantifiers,
        index,
        stops: &stops,
    };
    go_on(
        block,
        lits,
        kinds,
        reasons,
        count,
        budget,
        preferred,
        &fixed,
        &mut statuses,
        trues,
        opens,
        Bounds {
            conflict: 0,
            unit: 0,
        },
    )
}
