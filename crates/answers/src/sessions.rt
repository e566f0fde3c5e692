// A session as three numbers, its record's length, its revision and its state's number; and what opening, a step and a run answer.
ghost use Rattle.std.specs.Prelude.{◌≡◌, ◌≤◌, length};
ghost use Rattle.std.proofs.lemmas.List.Edits.{sets};
ghost use Rattle.answers.specs.Answers.{numbers_of};
ghost use Rattle.answers.specs.Promises.{SessionOfPromise, OpenedPromise, SteppedPromise, RanPromise};

use session::{Ran, Revision, Session, Stepped};
use words::Refusal;

// The session of three numbers.
pub fn session_of(length: usize, revision: u64, state: u32) -> Session
    ensures { SessionOfPromise length revision state result }
{
    Session {
        length,
        revision: Revision(revision),
        state: memory::state_of(state),
    }
}

// A session's numbers, in the first places of an array.
fn put(session: Session, answer: &mut [u64])
    requires { 3 ≤ length answer.old }
    ensures { answer.new ≡ sets answer.old 0 (numbers_of session) }
{
    answer[0] = session.length as u64;
    answer[1] = session.revision.0;
    answer[2] = u64::from(memory::number_of(session.state));
}

// What opening answers: 0 and the session's numbers, or the refusal's number alone.
pub fn opened(outcome: Result<Session, Refusal>, answer: &mut [u64; 3]) -> u32
    ensures { OpenedPromise outcome answer.old result answer.new }
{
    match outcome {
        Ok(session) => {
            put(session, answer);
            0
        }
        Err(refusal) => refusal.0,
    }
}

// What a step answers: the reason stands in a fourth place.
pub fn stepped(outcome: Result<Stepped, Refusal>, answer: &mut [u64; 4]) -> u32
    ensures { SteppedPromise outcome answer.old result answer.new }
{
    match outcome {
        Ok(step) => {
            put(step.session, answer);
            answer[3] = u64::from(step.reason);
            0
        }
        Err(refusal) => refusal.0,
    }
}

// What a run answers: the count of accepted steps stands in a fourth place, and the last one's reason in a fifth.
pub fn ran(outcome: Result<Ran, Refusal>, answer: &mut [u64; 5]) -> u32
    ensures { RanPromise outcome answer.old result answer.new }
{
    match outcome {
        Ok(run) => {
            put(run.session, answer);
            answer[3] = u64::from(run.steps);
            answer[4] = u64::from(run.reason);
            0
        }
        Err(refusal) => refusal.0,
    }
}
