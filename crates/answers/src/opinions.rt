// What a second opinion answers, as numbers.
ghost use Rattle.answers.specs.Promises.{SolvedPromise};

use record::State;
use words::Refusal;

// What a second opinion answers: the number of the state that it tells.
pub fn solved(outcome: Result<bool, Refusal>, answer: &mut [u64; 1]) -> u32
    ensures { SolvedPromise outcome answer.old result answer.new }
{
    match outcome {
        Ok(truth) => {
            let state = if truth { State::Valid } else { State::Unsat };
            answer[0] = u64::from(memory::number_of(state));
            0
        }
        Err(refusal) => refusal.0,
    }
}
