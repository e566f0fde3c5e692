// The witness of an ended session: values of the first group that make the rest of the formula true, or false.
#![tactic(auto)]

ghost use Rattle.record.specs.Trail.{trail};
ghost use Rattle.shown.specs.Promises.{ShownPromise};

mod guard; // which row of the table turns the call away
mod conflict; // the clause that unassigned variables are held against
mod values; // the values of the first group

use session::Session;
use words::Refusal;

// The first group's literals as the record of an ended session shows them, in prefix order, in the output's first places. The answer is how many
// there are.
pub fn shown(
    session: Session,
    block: &[i32],
    lits: &[i32],
    kinds: &[u8],
    output: &mut [i32],
) -> Result<usize, Refusal>
    ensures { ShownPromise session block.now (trail lits.now kinds.now) output.old result output.new }
{
    guard::shown_refusal(session, block, lits, kinds, output.len())?;
    let count = session.length;
    let clause = conflict::clause(block, conflict::lowest(block, lits, kinds, count));
    let values = record::values_of(lits, count);
    let prefix = formula::prefix(block);
    let k = listing::first_group(prefix);
    values::write(words::take(prefix, k), &values, clause, output);
    Ok(k)
}
