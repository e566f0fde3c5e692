// The clauses, with every variable given a value. The literals made true are the values' words.
ghost use Rattle.std.specs.Prelude.{◌≡◌, false, length};
ghost use Rattle.words.specs.Lists.{all};
ghost use Rattle.words.specs.Words.{mem};
ghost use Rattle.formula.specs.Block.{bad_ends};
ghost use Rattle.formula.specs.Formula.{clauses_from};
ghost use Rattle.plain.specs.Inner.Met.{met};

use clauses::InOrder;

// Whether a literal was made true. The look ends at its value; `contains` would look at eight of them at a time. The newest value, which comes first,
// is asked for on its own: where it is the literal's, the loop over the others isn't begun.
fn made_true(literal: i32, values: &[i32]) -> bool
    ensures { result ≡ mem literal values.now }
{
    let Some((newest, others)) = values.split_first() else {
        return false;
    };
    *newest == literal || others.iter().any(|value| *value == literal)
}

// Whether a clause has a true literal.
fn clause_met(clause: &[i32], values: &[i32]) -> bool
    ensures { result ≡ met values.now clause.now }
{
    clause.iter().any(|literal| made_true(*literal, values))
}

// Whether every clause has one.
pub(crate) fn all_met(ends: &[i32], literals: &[i32], values: &[i32]) -> bool
    requires { bad_ends (length literals.now) 0 ends.now ≡ false }
    ensures { result ≡ all (met values.now) (clauses_from literals.now 0 ends.now) }
{
    InOrder::of(ends, literals).all(|clause| clause_met(clause, values))
}
