// The rows that turn a counted run away: a run's own, and row 11 for the buffers that it is lent besides.
ghost use Rattle.std.specs.Prelude.{◌≡◌, ℕ};
ghost use Rattle.formula.specs.Limits.{limits};
ghost use Rattle.formula.specs.Block.{refusal};
ghost use Rattle.formula.specs.Check.{checked_of};
ghost use Rattle.memory.specs.Memory.{memory};
ghost use Rattle.counted.specs.Lent.{lent};
ghost use Rattle.counted.specs.Refusals.{cramped, counted_refusal};
ghost use Rattle.counted.specs.Inner.Guards.{early};

use session::{Revision, Session};
use words::Refusal;

// Whether a check was refused by one of the block's rows, or by row 11.
fn is_early(asked: Result<(), Refusal>) -> bool
    ensures { (n : ℕ) → asked ≡ checked_of n → result ≡ early n }
{
    asked.is_err_and(|refusal| refusal.0 < 12 || refusal.0 == 23)
}

// Whether the trues or the opens have fewer than C places, or the index fewer than V+T.
fn is_cramped(block: &[i32], trues: &[u32], opens: &[u32], index: &[u32]) -> bool
    requires { refusal limits block.now ≡ 0 }
    ensures { result ≡ cramped block.now trues.now opens.now index.now }
{
    let clauses = words::size_at(block, 1);
    trues.len() < clauses
        || opens.len() < clauses
        || index.len() < words::size_at(block, 0) + words::size_at(block, 2)
}

// The first row that applies. The block is checked once: a row after 11 says that all rows up to 11 have passed.
pub(crate) fn refusal(
    session: Session,
    block: &[i32],
    lits: &[i32],
    kinds: &[u8],
    reasons: &[u32],
    trues: &[u32],
    opens: &[u32],
    index: &[u32],
    seen: Revision,
    budget: u32,
) -> Result<(), Refusal>
    ensures { result ≡ checked_of (counted_refusal limits session block.now (lent (memory lits.now kinds.now reasons.now) trues.now opens.now index.now) seen budget) }
{
    let asked = session::session_refusal(session, block, lits, kinds, reasons, seen);
    if is_early(asked) {
        return asked;
    }
    if is_cramped(block, trues, opens, index) {
        return Err(Refusal(11));
    }
    asked?;
    if u64::MAX - session.revision.0 < u64::from(budget) {
        return Err(Refusal(15));
    }
    Ok(())
}
