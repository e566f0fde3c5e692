// The clause that unassigned variables are held against: the lowest one in conflict.
ghost use Rattle.std.specs.Prelude.{◌≡◌};
ghost use Rattle.formula.specs.Limits.{limits};
ghost use Rattle.formula.specs.Formula.{formula_of, clauses_from, ends_of, literals_of};
ghost use Rattle.rules.specs.Due.{due};
ghost use Rattle.record.specs.Trail.{trail, record_of};
ghost use Rattle.record.specs.Inner.Ready.{OnBlock};
ghost use Rattle.shown.specs.Inner.Conflict.{conflict_of, clause_of};

use formula::Clauses;
use record::Rule;
use tables::Tables;

// The clause in conflict that a due rule names.
fn of_rule(rule: Rule) -> Option<usize>
    ensures { result ≡ conflict_of rule }
{
    match rule {
        Rule::BacktrackExists { clause, .. } | Rule::Fail { clause } => Some(clause),
        _ => None,
    }
}

// The number of the lowest clause in conflict. A rule that is due with one names it.
pub(crate) fn lowest(block: &[i32], lits: &[i32], kinds: &[u8], count: usize) -> Option<usize>
    requires { OnBlock limits block.now (trail lits.now kinds.now) count }
    ensures { result ≡ conflict_of (due (formula_of block.now) (record_of (trail lits.now kinds.now) count)) }
{
    let mut tables = Tables::of(block);
    of_rule(rules::due(&mut tables, lits, kinds, count))
}

// The clause of a number, and with none a clause of no literals.
pub(crate) fn clause(block: &[i32], number: Option<usize>) -> &[i32]
    ensures { result.now ≡ clause_of (clauses_from (literals_of block.now) 0 (ends_of block.now)) number }
{
    let mut clauses = Clauses::of(formula::ends(block), formula::literals(block));
    match number {
        Some(c) => clauses.nth(c).unwrap_or_default(),
        None => &[],
    }
}
