// What an ended session shows, as numbers.
ghost use Rattle.answers.specs.Promises.{ShowedPromise};

use words::Refusal;

// What showing answers: how many values were written. It does what `wrote` does with a length, and stays beside it: each call's numbers have a
// promise of their own, and one function for both would need a third.
pub fn showed(outcome: Result<usize, Refusal>, answer: &mut [u64; 1]) -> u32
    ensures { ShowedPromise outcome answer.old result answer.new }
{
    match outcome {
        Ok(count) => {
            answer[0] = count as u64;
            0
        }
        Err(refusal) => refusal.0,
    }
}
