// Rows 6, 10 and 23: a table with a mark for each variable, or for each literal, seen so far. Both go from the last word to the first, so that the
// marks are those of the rest of the list.
ghost use Rattle.std.specs.Prelude.{◌≡◌, ◌+◌, false, length};
ghost use Rattle.words.specs.Rows.{refusal_of};
ghost use Rattle.formula.specs.Promises.{VariableTwicePromise};
ghost use Rattle.formula.specs.Limits.{limits};
ghost use Rattle.formula.specs.Formula.{clauses_from};
ghost use Rattle.formula.specs.Check.{checked_of};
ghost use Rattle.formula.specs.Inner.Named.{AllNamed};
ghost use Rattle.formula.specs.Inner.Tables.{pair_of, pair_rows, Fresh};

use crate::Clauses;
use crate::places::{LITERAL_PLACES, place};
use words::Refusal;

// Whether some variable stands twice, or a word has no place in the table.
pub fn variable_twice(ws: &[i32]) -> bool
    ensures { VariableTwicePromise ws.now result }
{
    let mut seen = [false; crate::MAX_VARIABLES + 1];
    for i in (0..ws.len()).rev() {
        let v = words::size(ws[i]);
        if crate::MAX_VARIABLES < v || seen[v] {
            return true;
        }
        seen[v] = true;
    }
    false
}

// Row 10 if a clause has both signs of a variable, else whether it repeats a literal. A literal seen in it is marked by the clause's stamp, which no
// mark has yet.
fn pair_in(
    clause: &[i32],
    marks: &mut [usize; LITERAL_PLACES],
    stamp: usize,
) -> Result<bool, Refusal>
    requires all_named { AllNamed limits.variables clause.now }
    requires fresh { Fresh stamp marks.old }
    ensures value { result ≡ pair_of clause.now }
    ensures fresh_2 { Fresh (stamp + 1) marks.new }
{
    let mut again = false;
    for i in (0..clause.len()).rev() {
        let own = place(clause[i]);
        prove!(own < LITERAL_PLACES);
        let opposite = marks[2 * crate::MAX_VARIABLES - own] == stamp;
        let twin = marks[own] == stamp;
        if opposite {
            return Err(Refusal(10));
        }
        again |= twin;
        marks[own] = stamp;
    }
    Ok(again)
}

// Row 10 if some clause has both signs of a variable, else row 23 if some clause repeats a literal. Each clause has a stamp of its own, so no mark is
// ever cleared.
pub(crate) fn pair_row(literals: &[i32], ends: &[i32]) -> Result<(), Refusal>
    requires { AllNamed limits.variables literals.now }
    ensures { result ≡ checked_of (refusal_of (pair_rows (clauses_from literals.now 0 ends.now))) }
{
    let mut marks = [0usize; LITERAL_PLACES];
    let mut repeated = false;
    for (i, clause) in Clauses::of(ends, literals).enumerate() {
        if pair_in(clause, &mut marks, i + 1)? {
            repeated = true;
        }
    }
    if repeated { Err(Refusal(23)) } else { Ok(()) }
}
