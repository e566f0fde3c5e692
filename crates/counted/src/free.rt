// With no clause in conflict and no unit clause, the prefix decides: its first monotone variable, or else its first unassigned one.
ghost use Rattle.std.specs.Prelude.{◌≡◌, ◌≤◌, nat_abs, length};
ghost use Rattle.formula.specs.Limits.{limits};
ghost use Rattle.choice.specs.First.{first_of};
ghost use Rattle.counted.specs.Inner.Free.{free_at, Livable, monotone_at, Walkable, free_rule};

use crate::fixed::Fixed;
use crate::live::is_live;
use formula::{LITERAL_PLACES, MIDDLE};
use record::Rule;
use words::Literal;

// Whether the variable of a prefix word is unassigned.
fn is_free(word: i32, statuses: &[u8; LITERAL_PLACES]) -> bool
    requires { nat_abs word ≤ limits.variables }
    ensures { result ≡ free_at statuses.now (nat_abs word) }
{
    statuses[MIDDLE + words::size(word)] >= 2
}

// What the variable of a prefix word takes by Monotone, if it is unassigned: with occurrences of one sign only in the clauses that count, an
// existential variable takes that sign, a universal one the opposite.
fn monotone(
    word: i32,
    fixed: &Fixed,
    statuses: &[u8; LITERAL_PLACES],
    trues: &[u32],
) -> Option<Literal>
    requires { Livable word fixed.now.stops.now fixed.now.index.now trues.now }
    ensures { result ≡ monotone_at fixed.now.stops.now fixed.now.index.now statuses.now trues.now word }
{
    if !is_free(word, statuses) {
        return None;
    }
    let v = words::size(word);
    let plus = is_live(fixed.part(MIDDLE + v), trues);
    let minus = is_live(fixed.part(MIDDLE - v), trues);
    match (plus, minus) {
        (true, false) => Some(Literal(word)),
        (false, true) => Some(Literal(words::opposite(word))),
        _ => None,
    }
}

// What the first monotone variable takes.
fn first_monotone(
    prefix: &[i32],
    fixed: &Fixed,
    statuses: &[u8; LITERAL_PLACES],
    trues: &[u32],
) -> Option<Literal>
    requires { Walkable prefix.now fixed.now.stops.now fixed.now.index.now trues.now }
    ensures { result ≡ first_of (monotone_at fixed.now.stops.now fixed.now.index.now statuses.now trues.now) prefix.now }
{
    let mut words = prefix.iter();
    words.find_map(|word| monotone(*word, fixed, statuses, trues))
}

// Monotone, Decide, Backtrack-forall or Succeed.
pub(crate) fn due_free(
    prefix: &[i32],
    kinds: &[u8],
    count: usize,
    fixed: &Fixed,
    statuses: &[u8; LITERAL_PLACES],
    trues: &[u32],
) -> Rule
    requires walkable { Walkable prefix.now fixed.now.stops.now fixed.now.index.now trues.now }
    requires count_in_bounds { count ≤ length kinds.now }
    ensures { result ≡ free_rule prefix.now kinds.now count fixed.now.stops.now fixed.now.index.now statuses.now trues.now }
{
    let Some(first) = prefix.iter().position(|word| is_free(*word, statuses)) else {
        return match record::last_kind(kinds, count, 2) {
            Some(at) => Rule::BacktrackForall { at },
            None => Rule::Succeed,
        };
    };
    // The variables before it are assigned, and none of them takes anything.
    match first_monotone(&prefix[first..], fixed, statuses, trues) {
        Some(literal) => Rule::Monotone { literal },
        None => Rule::Decide {
            first: record::true_at(prefix, first),
        },
    }
}
