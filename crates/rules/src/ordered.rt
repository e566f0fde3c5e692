// The due rule is the first that applies: conflict, Unit, Monotone, Decide, all assigned.
ghost use Rattle.std.specs.Prelude.{◌≡◌, ◌≤◌, length};
ghost use Rattle.formula.specs.Limits.{limits};
ghost use Rattle.formula.specs.Formula.{prefix_of, clauses_from, formula_of};
ghost use Rattle.formula.specs.Block.{refusal};
ghost use Rattle.theory.specs.Record.{Record, Assignment, true_in};
ghost use Rattle.theory.specs.Tests.{untrue_of};
ghost use Rattle.record.specs.Found.{on_found};
ghost use Rattle.rules.specs.Due.{first_monotone, due_monotone, due};
ghost use Rattle.record.specs.declared.rule.Rule.TheVariants.{Monotone, Decide};
ghost use Rattle.record.specs.Trail.{trail};
ghost use Rattle.rules.specs.Promises.{DuePromise, DueConflictPromise};
ghost use Rattle.record.specs.Inner.Tables.{Values};
ghost use Rattle.tables.specs.Inner.Levels.{Levels};
ghost use Rattle.record.specs.Inner.Ready.{formula, Ready, OnBlock};
ghost use Rattle.rules.specs.Inner.Tabled.{Sorts, Tabled};

use crate::by_literal::LITERAL_PLACES;
use crate::{by_literal, occurrences, variables};
use clauses::{Deciding, UnitClause};
use record::{PLACES, Rule};
use tables::Tables;
use words::Literal;

// The due rule of a record. The tables are lent, so that a step costs what the block has and not what a table has room for, and are left as they were.
pub fn due(tables: &mut Tables, lits: &[i32], kinds: &[u8], count: usize) -> Rule
    requires { OnBlock limits tables.old.block.now (trail lits.now kinds.now) count }
    ensures rule { DuePromise tables.old.block.now (trail lits.now kinds.now) count tables.old.statuses result tables.new.statuses }
    ensures block { tables.new.block.now ≡ tables.old.block.now }
    ensures levels { tables.new.levels ≡ tables.old.levels }
{
    let block = tables.block;
    let prefix = formula::prefix(block);
    let values = record::values_of(lits, count);
    let levels = &tables.levels;
    let statuses = &mut tables.statuses;
    tables::fill(prefix, &values, statuses);
    let rule = due_by(block, kinds, count, &values, statuses, levels);
    by_literal::wipe(prefix.len(), statuses);
    rule
}

// The same by the tables of the record: first what the clauses make due.
fn due_by(
    block: &[i32],
    kinds: &[u8],
    count: usize,
    values: &[u8; PLACES],
    statuses: &[u8; LITERAL_PLACES],
    levels: &[u16; PLACES],
) -> Rule
    requires block_value { refusal limits block.now ≡ 0 }
    requires levels { Levels (prefix_of block.now) levels.now }
    requires count_in_bounds { count ≤ length kinds.now }
    ensures { (R : Record) → Tabled R values.now kinds.now count → Sorts (prefix_of block.now) (true_in R) statuses.now → result ≡ due (formula_of block.now) R }
{
    let prefix = formula::prefix(block);
    let ends = formula::ends(block);
    let literals = formula::literals(block);
    match clauses::deciding(ends, literals, statuses, levels) {
        Deciding::Conflict(clause) => due_conflict(kinds, count, clause),
        Deciding::Quiet(Some(UnitClause { literal, clause })) => Rule::Unit { literal, clause },
        Deciding::Quiet(None) => due_free(prefix, ends, literals, kinds, count, values, statuses),
    }
}

// In conflict: Backtrack-exists, or Fail.
pub fn due_conflict(kinds: &[u8], count: usize, clause: usize) -> Rule
    requires { count ≤ length kinds.now }
    ensures { DueConflictPromise kinds.now count clause result }
{
    match record::last_kind(kinds, count, 1) {
        Some(at) => Rule::BacktrackExists { at, clause },
        None => Rule::Fail { clause },
    }
}

// With no unit clause, by the first unassigned variable: Monotone or Decide; with everything assigned Backtrack-forall or Succeed.
fn due_free(
    prefix: &[i32],
    ends: &[i32],
    literals: &[i32],
    kinds: &[u8],
    count: usize,
    values: &[u8; PLACES],
    statuses: &[u8; LITERAL_PLACES],
) -> Rule
    requires ready { Ready prefix.now ends.now literals.now }
    requires count_in_bounds { count ≤ length kinds.now }
    ensures { (R : Record) → Tabled R values.now kinds.now count → Sorts prefix.now (true_in R) statuses.now → result ≡ due_monotone (formula prefix.now ends.now literals.now) R }
{
    match choice::first_unassigned(prefix, values) {
        Some(first) => due_chosen(prefix, ends, literals, values, statuses, first),
        None => match record::last_kind(kinds, count, 2) {
            Some(at) => Rule::BacktrackForall { at },
            None => Rule::Succeed,
        },
    }
}

// Monotone, or Decide with this first unassigned variable.
fn due_chosen(
    prefix: &[i32],
    ends: &[i32],
    literals: &[i32],
    values: &[u8; PLACES],
    statuses: &[u8; LITERAL_PLACES],
    first: Literal,
) -> Rule
    requires { Ready prefix.now ends.now literals.now }
    ensures { (ρ : Assignment) → Values ρ values.now → Sorts prefix.now ρ statuses.now → result ≡ on_found (first_monotone prefix.now (untrue_of ρ (clauses_from literals.now 0 ends.now)) ρ) (λ l. Monotone l) (Decide first) }
{
    let occurs = occurrences::occurring(ends, literals, statuses);
    match variables::first_monotone(prefix, values, &occurs) {
        Some(literal) => Rule::Monotone { literal },
        None => Rule::Decide { first },
    }
}
