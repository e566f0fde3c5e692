// What a page answers, as numbers.
ghost use Rattle.answers.specs.Promises.{PagedPromise};

use listing::Page;
use words::Refusal;

// What a page answers: where the next one begins, the entries written, and whether it is paused.
pub fn paged(outcome: Result<Page, Refusal>, answer: &mut [u64; 3]) -> u32
    ensures { PagedPromise outcome answer.old result answer.new }
{
    match outcome {
        Ok(page) => {
            answer[0] = u64::from(page.next);
            answer[1] = u64::from(page.entries);
            answer[2] = u64::from(page.paused);
            0
        }
        Err(refusal) => refusal.0,
    }
}
