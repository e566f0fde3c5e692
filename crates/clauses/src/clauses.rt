// The clauses in conflict, and the unit clauses. Clause c has the literal words from the end before it to its own.
ghost use Rattle.std.specs.Prelude.{◌≡◌, ◌≤◌, pos, nat_abs, get_or};
ghost use Rattle.formula.specs.Limits.{limits};
ghost use Rattle.record.specs.Inner.Tables.{places};
ghost use Rattle.tables.specs.Inner.ByLiteral.{status_in};
ghost use Rattle.clauses.specs.Inner.Clauses.{Placed, Clauses, level_by, conflict_by, sight_from, decisive};
ghost use Rattle.clauses.specs.Promises.{StatusPromise, StatusAtPromise, DecidingPromise};

use crate::found::{Deciding, UnitClause};
use crate::in_order::InOrder;
use formula::{LITERAL_PLACES, place};
use record::{PLACES, literal_at};
use tables::NO_LEVEL;
use words::Literal;

// What a literal is to its clause: 0 false, 1 true, 2 unassigned existential, 3 unassigned universal. And of the literal at an index. The table is
// lent, and its bytes are what its lender has: an enum would ask more of them.
pub fn status(word: i32, statuses: &[u8; LITERAL_PLACES]) -> u8
    requires { nat_abs word ≤ limits.variables }
    ensures { StatusPromise word statuses.now result }
{
    statuses[place(word)]
}

pub fn status_at(ws: &[i32], i: usize, statuses: &[u8; LITERAL_PLACES]) -> u8
    requires { nat_abs (get_or ws.now i (pos 0)) ≤ limits.variables }
    ensures { StatusAtPromise ws.now i statuses.now result }
{
    status(literal_at(ws, i).0, statuses)
}

// The level of a literal's variable.
#[tactic(auto, using(formula::specs::Laws::Limits::variables_are))]
fn level(word: i32, levels: &[u16; PLACES]) -> u16
    requires { nat_abs word ≤ limits.variables }
    ensures { result ≡ level_by levels.now word }
{
    levels[words::size(word)]
}

// Whether a clause has no true literal and no unassigned existential literal.
fn in_conflict(clause: &[i32], statuses: &[u8; LITERAL_PLACES]) -> bool
    requires { Placed clause.now }
    ensures { result ≡ conflict_by (status_in statuses.now) clause.now }
{
    !clause
        .iter()
        .any(|word| matches!(status(*word, statuses), 1 | 2))
}

// What a clause shows when its literals are read.
#[derive(Clone, Copy)]
enum Sight {
    InConflict,
    UnitOn(Literal),
    Neither,
}

// No further than a true literal, or a second unassigned existential one: then it is neither.
fn look(clause: &[i32], statuses: &[u8; LITERAL_PLACES], levels: &[u16; PLACES]) -> Sight
    requires { Placed clause.now }
    ensures { result ≡ sight_from (status_in statuses.now) (level_by levels.now) places clause.now }
{
    let mut kept = None; // its unassigned existential literal
    let mut above = NO_LEVEL; // the lowest level of its unassigned universal literals, or NO_LEVEL while it has none
    for word in clause {
        match status(*word, statuses) {
            0 => {}
            1 => return Sight::Neither,
            2 if kept.is_some() => return Sight::Neither,
            2 => kept = Some(*word),
            _ => above = above.min(level(*word, levels)),
        }
    }
    let Some(word) = kept else {
        return Sight::InConflict;
    };
    if level(word, levels) < above {
        Sight::UnitOn(Literal(word))
    } else {
        Sight::Neither
    }
}

// The same, where it decides.
fn found(clause: &[i32], statuses: &[u8; LITERAL_PLACES], levels: &[u16; PLACES]) -> Option<Sight>
    requires { Placed clause.now }
    ensures { result ≡ decisive (sight_from (status_in statuses.now) (level_by levels.now) places clause.now) }
{
    match look(clause, statuses, levels) {
        Sight::Neither => None,
        sight => Some(sight),
    }
}

// The lowest clause in conflict, or with none the lowest unit clause and its literal. Each clause's literals are read once.
pub fn deciding(
    ends: &[i32],
    literals: &[i32],
    statuses: &[u8; LITERAL_PLACES],
    levels: &[u16; PLACES],
) -> Deciding
    requires { Clauses ends.now literals.now 0 }
    ensures { DecidingPromise ends.now literals.now statuses.now levels.now result }
{
    let mut clauses = InOrder::of(ends, literals);
    // [unit.search] Upwards, to the first clause that decides; after a unit clause only a conflict counts, which fewer literals show.
    let Some(sight) = clauses.find_map(|clause| found(clause, statuses, levels)) else {
        return Deciding::Quiet(None);
    };
    let c = ends.len() - 1 - clauses.ends.len(); // it is the last that came
    match sight {
        Sight::InConflict => Deciding::Conflict(c),
        Sight::UnitOn(literal) => match clauses.position(|clause| in_conflict(clause, statuses)) {
            Some(at) => Deciding::Conflict(c + 1 + at),
            None => Deciding::Quiet(Some(UnitClause { literal, clause: c })),
        },
        Sight::Neither => Deciding::Quiet(None),
    }
}
