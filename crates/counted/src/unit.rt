// The lowest unit clause from a bound on: of the clauses with key 1, the first whose open literal is of a lower level than the universal ones.
ghost use Rattle.std.specs.Prelude.{◌≡◌, cond, ◌≤◌, min, eqb, pos, nat_abs, length, get_or};
ghost use Rattle.formula.specs.Formula.{clauses_from};
ghost use Rattle.formula.specs.Laws.Ends.{clause_start};
ghost use Rattle.formula.specs.Limits.{limits};
ghost use Rattle.rules.specs.Due.{lowest_unit};
ghost use Rattle.tables.specs.Inner.ByLiteral.{status_in};
ghost use Rattle.clauses.specs.Inner.Clauses.{Placed, level_by};
ghost use Rattle.counted.specs.Inner.Unit.{unit_by, Looking, LookRoom};

use crate::numbers::key;
use clauses::UnitClause;
use formula::LITERAL_PLACES;
use record::PLACES;
use tables::NO_LEVEL;
use words::{Literal, size, size_at};

// Of a clause with key 1: its open literal, if it is a unit clause.
fn unit_literal(
    clause: &[i32],
    statuses: &[u8; LITERAL_PLACES],
    levels: &[u16; PLACES],
) -> Option<Literal>
    requires { Placed clause.now }
    ensures { result ≡ unit_by (status_in statuses.now) (level_by levels.now) clause.now }
{
    let mut open = Literal(0);
    let mut above = NO_LEVEL;
    for word in clause {
        match clauses::status(*word, statuses) {
            2 => open = Literal(*word),
            3 => above = above.min(levels[size(*word)]),
            _ => {}
        }
    }
    if levels[size(open.0)] < above {
        Some(open)
    } else {
        None
    }
}

// Where a clause begins.
fn clause_start(ends: &[i32], c: usize) -> usize
    ensures { result ≡ clause_start ends.now c }
{
    if c == 0 { 0 } else { size_at(ends, c - 1) }
}

// The lowest unit clause and its literal. No clause below `from` is a unit clause.
pub(crate) fn lowest_unit(
    ends: &[i32],
    words: &[i32],
    trues: &[u32],
    opens: &[u32],
    statuses: &[u8; LITERAL_PLACES],
    levels: &[u16; PLACES],
    from: usize,
) -> Option<UnitClause>
    requires { LookRoom ends.now words.now trues.now opens.now from }
    ensures { (x : Looking ends.now words.now statuses.now levels.now trues.now opens.now from) → result ≡ lowest_unit x.p x.ρ (clauses_from words.now 0 ends.now) }
{
    for c in from..ends.len() {
        if key(trues[c], opens[c]) != 1 {
            continue;
        }
        let clause = &words[clause_start(ends, c)..size_at(ends, c)];
        if let Some(literal) = unit_literal(clause, statuses, levels) {
            return Some(UnitClause { literal, clause: c });
        }
    }
    None
}
