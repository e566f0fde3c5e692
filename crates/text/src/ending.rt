// A text's end: the rows in their order, the block, and what is wiped.
#![tactic(auto, using(formula::specs::Laws::Limits::variables_are, formula::specs::Laws::Limits::clauses_are, formula::specs::Laws::Limits::literals_are, std::proofs::lemmas::Bool::Decides::nat_tests), unfolding(formula::specs::Check::checked_of))]

ghost use Rattle.std.specs.Prelude.{◌≡◌, ◌||◌, not, ◌+◌, ◌≤◌, eqb, length, take, IfOk};
ghost use Rattle.words.specs.Outcomes.{outcome};
ghost use Rattle.words.specs.Rows.{refusal_of};
ghost use Rattle.formula.specs.Limits.{limits};
ghost use Rattle.formula.specs.Check.{checked_of};
ghost use Rattle.text.specs.Tree.{count_rows};
ghost use Rattle.text.specs.Pieces.{settled, kept_block};
ghost use Rattle.text.specs.Inner.Ending.{bound_rows, over_limit};

use crate::Unread;
use reader::Kept;
use words::Refusal;

// How many words the block takes.
fn block_length(kept: Kept) -> usize
    ensures { result ≡ 6 + kept.variables + kept.clauses + kept.literals }
{
    6 + kept.variables as usize + kept.clauses as usize + kept.literals as usize
}

// Whether a number is beyond 32 signed bits, or there are not as many clause lines as announced.
fn is_wrong(kept: Kept) -> bool
    ensures { result ≡ (kept.large || not (eqb kept.clauses kept.count)) }
{
    kept.large || kept.clauses != kept.count
}

// Whether a count is over its limit.
fn over_limit(kept: Kept) -> bool
    ensures { result ≡ over_limit limits kept.variables kept.clauses kept.literals }
{
    formula::MAX_VARIABLES < kept.variables as usize
        || formula::MAX_CLAUSES < kept.clauses as usize
        || formula::MAX_LITERALS < kept.literals as usize
}

// Rows 28 to 30.
fn check_counts(kept: Kept, room: usize) -> Result<(), Refusal>
    ensures { result ≡ checked_of (refusal_of (count_rows limits kept.large kept.variables kept.count kept.clauses kept.literals room)) }
{
    if is_wrong(kept) {
        return Err(Refusal(28));
    }
    if over_limit(kept) {
        return Err(Refusal(29));
    }
    if room < block_length(kept) {
        return Err(Refusal(30));
    }
    Ok(())
}

// Rows 5 and 6 of the bound words.
fn check_bound(kept: Kept, ws: &[i32]) -> Result<(), Refusal>
    requires { kept.variables ≤ limits.variables }
    ensures { result ≡ checked_of (refusal_of (bound_rows kept ws.now)) }
{
    if kept.over || formula::some_stranger(ws, kept.variables as usize) {
        return Err(Refusal(5));
    }
    if kept.variables < kept.bound || formula::variable_twice(ws) {
        return Err(Refusal(6));
    }
    Ok(())
}

// The block's length, with the block in the output; where a row applies, the output is left half made.
fn lay(kept: Kept, output: &mut [i32]) -> Result<usize, Unread>
    ensures answer { result ≡ (settled kept output.old limits).answer }
    ensures fits { IfOk result (λ n. n ≤ length output.new) }
    ensures block { IfOk result (λ n. take n output.new ≡ kept_block kept output.old) }
{
    check_counts(kept, output.len()).map_err(Unread::Refused)?;
    let variables = kept.variables as usize;
    let bound = (kept.bound as usize).min(variables);
    check_bound(kept, words::take(words::drop(output, 6), bound)).map_err(Unread::Row)?;
    laid::lay(
        output,
        variables,
        bound,
        kept.clauses as usize,
        kept.literals as usize,
    );
    let n = block_length(kept);
    formula::check(&output[..n]).map_err(Unread::Row)?;
    Ok(n)
}

// The answer at a text's end, and the output that it leaves: 0 behind the block, or 0 alone.
pub(crate) fn settle(kept: Kept, output: &mut [i32]) -> Result<usize, Unread>
    ensures { outcome result output.new ≡ settled kept output.old limits }
{
    let answer = lay(kept, output);
    let stays = answer.unwrap_or(0);
    output[stays..].fill(0);
    answer
}
