// The rows of the table that speak of what is to be shown, in its order.
ghost use Rattle.std.specs.Prelude.{◌≡◌};
ghost use Rattle.formula.specs.Limits.{limits};
ghost use Rattle.formula.specs.Check.{checked_of};
ghost use Rattle.record.specs.Trail.{trail};
ghost use Rattle.shown.specs.Shown.{no_witness, shown_refusal};

use record::State;
use session::Session;
use words::Refusal;

// Row 32: whether there is nothing to show. `universal` says whether the first group is.
fn shows_nothing(state: State, universal: bool) -> bool
    ensures { result ≡ no_witness state universal }
{
    match state {
        State::Open => true,
        State::Valid => universal,
        State::Unsat => !universal,
    }
}

// All rows of the call, on an output with room for so many values.
pub(crate) fn shown_refusal(
    session: Session,
    block: &[i32],
    lits: &[i32],
    kinds: &[u8],
    room: usize,
) -> Result<(), Refusal>
    ensures { result ≡ checked_of (shown_refusal limits session block.now (trail lits.now kinds.now) room) }
{
    memory::open_refusal(block, memory::record_places(lits, kinds))?;
    if record::bad_record(block, lits, kinds, session.length) {
        return Err(Refusal(12));
    }
    let prefix = formula::prefix(block);
    if shows_nothing(session.state, words::negative_at(prefix, 0)) {
        return Err(Refusal(32));
    }
    if room < words::size_at(block, 0) {
        return Err(Refusal(30));
    }
    Ok(())
}
