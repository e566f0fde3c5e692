// The numbers of the clauses. A clause's key is twice its true literals and its open ones: 0 is a conflict, and a unit clause has 1.
ghost use Rattle.std.specs.Prelude.{◌≡◌, ◌+◌, ◌*◌, ◌≤◌, length, MatchOption};
ghost use Rattle.formula.specs.Limits.{limits};
ghost use Rattle.formula.specs.Formula.{clauses_from};
ghost use Rattle.tables.specs.Inner.ByLiteral.{status_in};
ghost use Rattle.clauses.specs.Inner.Clauses.{Placed};
ghost use Rattle.counted.specs.Inner.Numbers.{numbers_of, Fillable, Filled, NoneFrom, Least};

use clauses::InOrder;
use formula::LITERAL_PLACES;

#[derive(Clone, Copy)]
pub(crate) struct Numbers {
    pub(crate) trues: u32, // its true literals
    pub(crate) opens: u32, // its unassigned existential ones
}

// The numbers of one clause.
fn count_clause(clause: &[i32], statuses: &[u8; LITERAL_PLACES]) -> Numbers
    requires placed { Placed clause.now }
    requires clause_len_bound { length clause.now ≤ limits.literals }
    ensures { result ≡ numbers_of (status_in statuses.now) clause.now }
{
    let mut trues: u32 = 0;
    let mut opens: u32 = 0;
    for word in clause {
        let status = clauses::status(*word, statuses);
        trues += u32::from(status == 1);
        opens += u32::from(status == 2);
    }
    Numbers { trues, opens }
}

// The fresh count of every clause.
pub(crate) fn fill_numbers(
    ends: &[i32],
    words: &[i32],
    statuses: &[u8; LITERAL_PLACES],
    trues: &mut [u32],
    opens: &mut [u32],
)
    requires { Fillable ends.now words.now trues.old opens.old }
    ensures { Filled (status_in statuses.now) (clauses_from words.now 0 ends.now) trues.old opens.old trues.new opens.new }
{
    for (c, clause) in InOrder::of(ends, words).enumerate() {
        let numbers = count_clause(clause, statuses);
        trues[c] = numbers.trues;
        opens[c] = numbers.opens;
    }
}

// A clause's key, by its two numbers. It never wraps.
pub(crate) fn key(trues: u32, opens: u32) -> usize
    ensures { result ≡ 2 * trues + opens }
{
    2 * trues as usize + opens as usize
}

// The lowest clause from a place on whose key is the wanted one, of those below `most`.
pub(crate) fn lowest(
    trues: &[u32],
    opens: &[u32],
    from: usize,
    most: usize,
    wanted: usize,
) -> Option<usize>
    requires most_in_bounds { most ≤ length trues.now }
    requires most_in_bounds_2 { most ≤ length opens.now }
    ensures { MatchOption result (NoneFrom trues.now opens.now from most wanted) (Least trues.now opens.now from most wanted) }
{
    (from..most).find(|c| key(trues[*c], opens[*c]) == wanted)
}
