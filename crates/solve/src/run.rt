// The verdict by the rules: a counted run in slices, until it ends or the budget is used.
ghost use Rattle.std.specs.Prelude.{◌<◌, ◌≤◌};

use crate::ask::Request;
use crate::room::{CLAUSES, INDEX_WORDS, PLACES};
use crate::{said, witness};
use record::State;
use session::{Revision, Session};
use words::Refusal;

// The steps of a slice.
const SLICE: u64 = 65536;

// What a counted run is lent: the record and its reasons, and the numbers of the clauses.
#[derive(Drop)]
struct Memory {
    literals: [i32; PLACES],
    kinds: [u8; PLACES],
    reasons: [u32; PLACES],
    trues: [u32; CLAUSES],
    opens: [u32; CLAUSES],
    index: [u32; INDEX_WORDS],
}

// The steps of the next slice.
fn slice_of(left: u64) -> u32
    requires { 0 < left }
    ensures { (0 < result) × (result ≤ left) }
{
    left.min(SLICE) as u32
}

impl Memory {
    fn open(&mut self, block: &[i32]) -> Result<Session, Refusal> {
        session::open(
            block,
            &mut self.literals,
            &mut self.kinds,
            &mut self.reasons,
            Revision(0),
        )
    }

    fn slice(&mut self, block: &[i32], from: Session, steps: u32) -> Result<Session, Refusal> {
        let ran = counted::run(
            from,
            block,
            &mut self.literals,
            &mut self.kinds,
            &mut self.reasons,
            &mut self.trues,
            &mut self.opens,
            &mut self.index,
            from.revision,
            steps,
            &[0],
        )?;
        Ok(ran.session)
    }

    // The steps made are the revision, as it began at 0.
    fn run(&mut self, rt: &impl Eprint, block: &[i32], asked: Request) -> Result<Session, Refusal> {
        let mut session = self.open(block)?;
        let mut left = asked.budget;
        while 0 < left {
            let steps = slice_of(left);
            session = self.slice(block, session, steps)?;
            if !matches!(session.state, State::Open) {
                break;
            }
            said::progress(rt, session.revision.0, asked.progress);
            left -= u64::from(steps);
        }
        Ok(session)
    }
}

// The verdict, as far as the slices have come, and what the record shows.
pub(crate) fn solve(rt: &(impl Print + Eprint), block: &[i32], asked: Request) {
    let mut memory = Memory {
        literals: [0; PLACES],
        kinds: [0; PLACES],
        reasons: [0; PLACES],
        trues: [0; CLAUSES],
        opens: [0; CLAUSES],
        index: [0; INDEX_WORDS],
    };
    match memory.run(rt, block, asked) {
        Ok(session) => {
            said::verdict(rt, block, session.state);
            witness::write(rt, session, block, &memory.literals, &memory.kinds);
        }
        Err(refusal) => said::refused(rt, refusal),
    }
}
