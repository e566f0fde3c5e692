// What reading a text and writing one answer, as numbers.
ghost use Rattle.answers.specs.Promises.{ToldPromise, WrotePromise};

use text::Unread;
use words::Refusal;

// What reading answers: the status, and one number.
pub fn told(outcome: Result<usize, Unread>, answer: &mut [u64; 1]) -> u32
    ensures { ToldPromise outcome answer.old result answer.new }
{
    let (status, number) = match outcome {
        Ok(size) => (0, size as u64),
        Err(Unread::Misfit(place)) => (27, place),
        Err(Unread::Refused(refusal)) => (refusal.0, 0),
        Err(Unread::Row(row)) => (31, u64::from(row.0)),
    };
    answer[0] = number;
    status
}

// What writing answers: the text's length.
pub fn wrote(outcome: Result<usize, Refusal>, answer: &mut [u64; 1]) -> u32
    ensures { WrotePromise outcome answer.old result answer.new }
{
    match outcome {
        Ok(bytes) => {
            answer[0] = bytes as u64;
            0
        }
        Err(refusal) => refusal.0,
    }
}
