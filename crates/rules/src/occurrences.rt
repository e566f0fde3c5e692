// The literals that occur in the clauses with no true literal, which are the ones that Monotone counts.
ghost use Rattle.std.specs.Prelude.{◌≡◌, length};
ghost use Rattle.words.specs.Lists.{any};
ghost use Rattle.formula.specs.Inner.Places.{literal_places};
ghost use Rattle.formula.specs.Formula.{clauses_from};
ghost use Rattle.theory.specs.Tests.{untrue_of};
ghost use Rattle.tables.specs.Inner.ByLiteral.{status_in};
ghost use Rattle.rules.specs.Inner.Occurrences.{true_by, Occurring, Marked, Counted};
ghost use Rattle.clauses.specs.Inner.Clauses.{Placed, Clauses};

use clauses::{InOrder, status};
use formula::{LITERAL_PLACES, place};

// Whether a clause has a true literal.
fn has_true(clause: &[i32], statuses: &[u8; LITERAL_PLACES]) -> bool
    requires { Placed clause.now }
    ensures { result ≡ any (true_by (status_in statuses.now)) clause.now }
{
    clause.iter().any(|word| status(*word, statuses) == 1)
}

// Marks the literals of a clause.
fn mark(clause: &[i32], occurs: &mut [u8; LITERAL_PLACES])
    requires placed { Placed clause.now }
    requires occurs_len { length occurs.old ≡ literal_places }
    ensures { Marked clause.now occurs.old occurs.new }
{
    for word in clause {
        occurs[place(*word)] = 1;
    }
}

// Marks the literals of a clause unless it has a true one.
fn count(clause: &[i32], statuses: &[u8; LITERAL_PLACES], occurs: &mut [u8; LITERAL_PLACES])
    requires placed { Placed clause.now }
    requires occurs_len { length occurs.old ≡ literal_places }
    ensures { Counted (true_by (status_in statuses.now)) clause.now occurs.old occurs.new }
{
    if !has_true(clause, statuses) {
        mark(clause, occurs);
    }
}

// 1 for each literal that occurs in a clause with no true literal, else 0.
pub(crate) fn occurring(
    ends: &[i32],
    literals: &[i32],
    statuses: &[u8; LITERAL_PLACES],
) -> [u8; LITERAL_PLACES]
    requires { Clauses ends.now literals.now 0 }
    ensures { Occurring (untrue_of (true_by (status_in statuses.now)) (clauses_from literals.now 0 ends.now)) result }
{
    let mut occurs = [0u8; LITERAL_PLACES];
    for clause in InOrder::of(ends, literals) {
        count(clause, statuses, &mut occurs);
    }
    occurs
}
