// The rows of the table that speak of a session and of a proposal, in its order. Row 15 needs no look at them: it stands with the calls.
ghost use Rattle.std.specs.Prelude.{◌≡◌, take};
ghost use Rattle.formula.specs.Formula.{prefix_of};
ghost use Rattle.formula.specs.Check.{checked_of};
ghost use Rattle.theory.specs.Record.{among};
ghost use Rattle.memory.specs.Memory.{memory};
ghost use Rattle.record.specs.Inner.Ready.{HeldOn};
ghost use Rattle.session.specs.Promises.{SessionRefusalPromise};
ghost use Rattle.session.specs.Inner.Guards.{proposal_refusal};

use crate::{Revision, Session};
use record::Rule;
use tables::Tables;
use words::{Literal, Refusal};

// The block's rows and rows 11 to 14, which a step and a run share.
pub fn session_refusal(
    session: Session,
    block: &[i32],
    lits: &[i32],
    kinds: &[u8],
    reasons: &[u32],
    seen: Revision,
) -> Result<(), Refusal>
    ensures { SessionRefusalPromise session block.now (memory lits.now kinds.now reasons.now) seen result }
{
    memory::open_refusal(block, memory::places(lits, kinds, reasons))?;
    let count = session.length;
    if record::bad_record(block, lits, kinds, count)
        || memory::bad_reasons(block, kinds, reasons, count)
    {
        return Err(Refusal(12));
    }
    if search::is_over(session.state) {
        return Err(Refusal(13));
    }
    if seen.0 != session.revision.0 {
        return Err(Refusal(14));
    }
    Ok(())
}

// Rows 16 and 17, where a rule is due.
pub(crate) fn proposal_refusal(
    tables: &Tables,
    lits: &[i32],
    count: usize,
    rule: Rule,
    proposal: Literal,
) -> Result<(), Refusal>
    requires { HeldOn tables.now.block.now lits.now count }
    ensures { result ≡ checked_of (proposal_refusal (prefix_of tables.now.block.now) (among (take count lits.now)) rule proposal) }
{
    if proposal.0 == 0 {
        return Ok(());
    }
    if !search::is_decide(rule) {
        return Err(Refusal(16));
    }
    if !choice::is_open(tables.block, lits, count, proposal, &tables.levels) {
        return Err(Refusal(17));
    }
    Ok(())
}
