// The block's three parts. Where a part begins is known here alone.
ghost use Rattle.std.specs.Prelude.{◌≡◌, ◌+◌, drop};
ghost use Rattle.formula.specs.Formula.{variables_of, clause_count_of};
ghost use Rattle.formula.specs.Promises.{PrefixPromise, EndsPromise, LiteralsPromise};

// The header's words: three counts and three offsets.
pub(crate) const HEADER: usize = 6;

// The words after the prefix, and those after the clause ends.
fn after_prefix(block: &[i32]) -> &[i32]
    ensures { result.now ≡ drop (6 + variables_of block.now) block.now }
{
    words::drop(words::drop(block, HEADER), words::size_at(block, 0))
}

fn after_ends(block: &[i32]) -> &[i32]
    ensures { result.now ≡ drop (6 + variables_of block.now + clause_count_of block.now) block.now }
{
    words::drop(after_prefix(block), words::size_at(block, 1))
}

pub fn prefix(block: &[i32]) -> &[i32]
    ensures { PrefixPromise block.now result.now }
{
    words::take(words::drop(block, HEADER), words::size_at(block, 0))
}

pub fn ends(block: &[i32]) -> &[i32]
    ensures { EndsPromise block.now result.now }
{
    words::take(after_prefix(block), words::size_at(block, 1))
}

pub fn literals(block: &[i32]) -> &[i32]
    ensures { LiteralsPromise block.now result.now }
{
    words::take(after_ends(block), words::size_at(block, 2))
}
