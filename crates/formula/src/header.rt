// Rows 2 and 3: the counts and the offsets.
ghost use Rattle.std.specs.Prelude.{◌≡◌, ◌+◌};
ghost use Rattle.formula.specs.Limits.{limits};
ghost use Rattle.formula.specs.Formula.{word, variables_of, clause_count_of};
ghost use Rattle.formula.specs.Block.{bad_count, bad_counts, is_not, bad_offsets};

// Whether the word at i is negative or over a limit.
fn bad_count(block: &[i32], i: usize, limit: usize) -> bool
    ensures { result ≡ bad_count limit (word block.now i) }
{
    words::negative_at(block, i) || limit < words::size_at(block, i)
}

#[tactic(auto, unfolding(crate::specs::Limits::limits))]
pub(crate) fn bad_counts(block: &[i32]) -> bool
    ensures { result ≡ bad_counts limits block.now }
{
    bad_count(block, 0, crate::MAX_VARIABLES)
        || bad_count(block, 1, crate::MAX_CLAUSES)
        || bad_count(block, 2, crate::MAX_LITERALS)
}

// Whether the word at i is not the number n.
#[tactic(auto, using(crate::proofs::Rows::not_number))]
fn is_not(block: &[i32], i: usize, n: usize) -> bool
    ensures { result ≡ is_not n (word block.now i) }
{
    words::negative_at(block, i) || words::size_at(block, i) != n
}

// Whether an offset is not where its part begins.
pub(crate) fn bad_offsets(block: &[i32], ends: usize, literals: usize) -> bool
    requires ends_value { ends ≡ 6 + variables_of block.now }
    requires literals_value { literals ≡ 6 + variables_of block.now + clause_count_of block.now }
    ensures { result ≡ bad_offsets block.now }
{
    is_not(block, 3, crate::cut::HEADER) || is_not(block, 4, ends) || is_not(block, 5, literals)
}
