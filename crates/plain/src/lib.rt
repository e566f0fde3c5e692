// A second opinion: the recursive truth itself, with no rule. It tries the outermost variable both ways and then goes on with the next.
#![tactic(auto)]

ghost use Rattle.std.specs.Prelude.{◌≡◌};
ghost use Rattle.plain.specs.Solve.{too_many};
ghost use Rattle.plain.specs.Promises.{SolvePromise};

mod looked; // the clauses, when nothing is left
mod tried; // variable by variable

use words::Refusal;

// [row.22] The most variables that it takes. specs/Solve has the same number.
const MOST: usize = 24;

// Whether a block has more.
fn too_many(block: &[i32]) -> bool
    ensures { result ≡ too_many block.now }
{
    MOST < words::size_at(block, 0)
}

// Whether the block's formula is true.
pub fn solve(block: &[i32]) -> Result<bool, Refusal>
    ensures { SolvePromise block.now result }
{
    formula::check(block)?;
    if too_many(block) {
        return Err(Refusal(22));
    }
    Ok(tried::holds(block))
}
