// Variable by variable, from the outermost on. The values stand in the last places of a table, newest first: one value more is one word more
// before them.
ghost use Rattle.std.specs.Prelude.{◌≡◌, ◌∷◌, ◌+◌, ◌≤◌, pos, nat_abs, length, get_or};
ghost use Rattle.words.specs.Lists.{all};
ghost use Rattle.formula.specs.Formula.{prefix_of, formula_of};
ghost use Rattle.formula.specs.Truth.{true?};
ghost use Rattle.plain.specs.Solve.{most_variables, holds_from};
ghost use Rattle.plain.specs.Inner.Met.{met};
ghost use Rattle.plain.specs.Inner.Tried.{so_far, Table, value_of, Ready};

use crate::{MOST, looked};

// The literal that makes a variable its first value, which is its prefix word, or the second, the word's opposite.
fn value_of(word: i32, second: bool) -> i32
    requires { nat_abs word ≤ 2147483647 }
    ensures { result ≡ value_of second word }
{
    if second { words::opposite(word) } else { word }
}

// Gives it to the variable, before the values so far.
fn give(block: &[i32], values: &mut [i32; MOST], i: usize, second: bool)
    requires ready { Ready block.now (i + 1) }
    requires values_len { length values.old ≡ most_variables }
    ensures { Table (i + 1) (value_of second (get_or (prefix_of block.now) i (pos 0)) ∷ so_far i values.old) values.new }
{
    values[MOST - 1 - i] = value_of(formula::prefix(block)[i], second);
}

// Whether each clause has a literal that is one of the values so far.
fn met_so_far(block: &[i32], values: &[i32; MOST], i: usize) -> bool
    requires { Ready block.now i }
    ensures { result ≡ all (met (so_far i values.now)) (formula_of block.now).clauses }
{
    looked::all_met(
        formula::ends(block),
        formula::literals(block),
        &values[MOST - i..],
    )
}

// Whether the formula is true from the variable at place i on, with the values so far. The second value is tried only where the first does not
// decide.
fn holds_from(block: &[i32], values: &mut [i32; MOST], i: usize) -> bool
    requires ready { Ready block.now i }
    requires values_len { length values.old ≡ most_variables }
    ensures value { result ≡ holds_from (formula_of block.now) i (so_far i values.old) }
    ensures table { Table i (so_far i values.old) values.new }
{
    if words::size_at(block, 0) <= i {
        return met_so_far(block, values, i);
    }
    give(block, values, i, false);
    let first = holds_from(block, values, i + 1);
    if first != words::negative_at(formula::prefix(block), i) {
        return first;
    }
    give(block, values, i, true);
    holds_from(block, values, i + 1)
}

// Whether it is true, with no value so far.
pub(crate) fn holds(block: &[i32]) -> bool
    requires { Ready block.now 0 }
    ensures { result ≡ true? (formula_of block.now) }
{
    let mut values = [0i32; MOST];
    holds_from(block, &mut values, 0)
}
