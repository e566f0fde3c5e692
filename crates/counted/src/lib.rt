// The counted run: numbers of each clause, kept from step to step, and an index of the clauses by literal.
#![tactic(auto)]

ghost use Rattle.memory.specs.Memory.{memory};
ghost use Rattle.counted.specs.Lent.{lent};
ghost use Rattle.counted.specs.Promises.{CountedPromise};

mod fixed; // what the block alone decides
mod index; // which clauses hold a literal
mod numbers; // the numbers of the clauses
mod walk; // the clauses of a literal, gone through
mod entry; // one literal more or less
mod unit; // the lowest unit clause
mod live; // the literals of the clauses with no true literal
mod free; // the variables, where no clause makes a rule due
mod due; // the due rule
mod decided; // one rule applied
mod searches; // rule after rule
mod guard; // which row of the table turns a call away

use session::{Ran, Revision, Session};
use words::Refusal;

// [counted] A run's answer and a run's memory; and the numbers of the clauses under the record that it leaves.
pub fn run(
    session: Session,
    block: &[i32],
    lits: &mut [i32],
    kinds: &mut [u8],
    reasons: &mut [u32],
    trues: &mut [u32],
    opens: &mut [u32],
    index: &mut [u32],
    seen: Revision,
    budget: u32,
    preferred: &[i32],
) -> Result<Ran, Refusal>
    ensures { CountedPromise session block.now (lent (memory lits.old kinds.old reasons.old) trues.old opens.old index.old) seen budget preferred.now result (lent (memory lits.new kinds.new reasons.new) trues.new opens.new index.new) }
{
    guard::refusal(
        session, block, lits, kinds, reasons, trues, opens, index, seen, budget,
    )?;
    let count = session.length;
    let found = searches::search(
        block, lits, kinds, reasons, trues, opens, index, count, budget, preferred,
    );
    Ok(Ran {
        session: Session {
            length: found.reached.count,
            revision: Revision(session.revision.0 + u64::from(found.steps)),
            state: found.reached.state,
        },
        steps: found.steps,
        reason: found.reason,
    })
}
