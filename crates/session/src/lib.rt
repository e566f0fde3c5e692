// A session that goes step by step, and the run with a budget. [demand.1.any] [demand.1.ends] No entrance asks anything of its input, and each of
// them comes to an end.
#![tactic(auto)]

ghost use Rattle.std.specs.Prelude.{◌≡◌};
ghost use Rattle.memory.specs.Memory.{memory};
ghost use Rattle.session.specs.Outcome.{session};
ghost use Rattle.session.specs.Promises.{OpenPromise, StepPromise, RunPromise};

mod guard; // which row of the table turns a call away, but for row 15

pub use guard::session_refusal;
use record::{Reached, State};
use tables::Tables;
use words::{Literal, Refusal};

// [session.types] A revision and a literal are numbers of different types: neither can stand for the other.
#[derive(Clone, Copy)]
pub struct Revision(pub u64);

// No step goes past it.
const LAST_REVISION: u64 = u64::MAX;

// [session] Record length, revision, and open, Valid or Unsat. Any words may be handed in.
#[derive(Clone, Copy)]
pub struct Session {
    pub length: usize,
    pub revision: Revision,
    pub state: State,
}

// What an accepted step answers: the session, and the reason of its rule.
#[derive(Clone, Copy)]
pub struct Stepped {
    pub session: Session,
    pub reason: u32,
}

// What an accepted run answers: the session, the count of steps, and the reason of the last one. A run has paused if its session is still open.
#[derive(Clone, Copy)]
pub struct Ran {
    pub session: Session,
    pub steps: u32,
    pub reason: u32,
}

// A fresh session at the given revision. The first V places of the record and of the reasons are set to 0.
pub fn open(
    block: &[i32],
    lits: &mut [i32],
    kinds: &mut [u8],
    reasons: &mut [u32],
    first: Revision,
) -> Result<Session, Refusal>
    ensures { OpenPromise block.now (memory lits.old kinds.old reasons.old) first result (memory lits.new kinds.new reasons.new) }
{
    memory::open_refusal(block, memory::places(lits, kinds, reasons))?;
    let n = words::size_at(block, 0);
    record::clear(lits, kinds, n);
    memory::wipe(reasons, 0, n);
    Ok(Session {
        length: 0,
        revision: first,
        state: State::Open,
    })
}

impl Session {
    // The one due rule, with the proposal that Decide is to take.
    pub fn step(
        self,
        block: &[i32],
        lits: &mut [i32],
        kinds: &mut [u8],
        reasons: &mut [u32],
        seen: Revision,
        proposal: Literal,
    ) -> Result<Stepped, Refusal>
        ensures { StepPromise self block.now (memory lits.old kinds.old reasons.old) seen proposal result (memory lits.new kinds.new reasons.new) }
    {
        guard::session_refusal(self, block, lits, kinds, reasons, seen)?;
        let revision = self.revision.0;
        if revision == LAST_REVISION {
            return Err(Refusal(15));
        }
        let count = self.length;
        let mut tables = Tables::of(block);
        let rule = rules::due(&mut tables, lits, kinds, count);
        guard::proposal_refusal(&tables, lits, count, rule, proposal)?;
        let reason = memory::tell(reasons, rule, count);
        let reached = applied::apply(block, lits, kinds, count, rule, proposal);
        Ok(Stepped {
            session: moved(reached, revision + 1),
            reason,
        })
    }

    // At most `budget` steps, with the preferred literals proposed.
    pub fn run(
        self,
        block: &[i32],
        lits: &mut [i32],
        kinds: &mut [u8],
        reasons: &mut [u32],
        seen: Revision,
        budget: u32,
        preferred: &[i32],
    ) -> Result<Ran, Refusal>
        ensures { RunPromise self block.now (memory lits.old kinds.old reasons.old) seen budget preferred.now result (memory lits.new kinds.new reasons.new) }
    {
        guard::session_refusal(self, block, lits, kinds, reasons, seen)?;
        let revision = self.revision.0;
        let most = LAST_REVISION - revision;
        if most < u64::from(budget) {
            return Err(Refusal(15));
        }
        let count = self.length;
        let mut tables = Tables::of(block);
        let found = search::search(&mut tables, lits, kinds, reasons, count, budget, preferred);
        Ok(Ran {
            session: moved(found.reached, revision + u64::from(found.steps)),
            steps: found.steps,
            reason: found.reason,
        })
    }
}

// The session of a search that has gone on to a revision.
fn moved(reached: Reached, revision: u64) -> Session
    ensures { result ≡ session reached.count revision reached.state }
{
    Session {
        length: reached.count,
        revision: Revision(revision),
        state: reached.state,
    }
}
