// One byte of a text.
#![tactic(auto, unfolding(crate::specs::Byte::byte_of, grammar::specs::Machine::shift))]

ghost use Rattle.reader.specs.Promises.{TakePromise};

use crate::Reader;
use crate::numbers::{next_number, next_place};
use grammar::step;

// The state after the byte b, with the output as working memory.
pub fn take(reader: Reader, b: u8, output: &mut [i32]) -> Reader
    ensures { TakePromise reader output.old b result output.new }
{
    let went = step(reader.state, b);
    Reader {
        state: went.to,
        number: next_number(reader.state, went.to, b, reader.number),
        at: next_place(went.to, reader.at),
        kept: reader.kept.keep(went.says, reader.number, output),
    }
}
