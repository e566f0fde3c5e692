// The text of a formula, read into a block: whole or in pieces.
#![tactic(auto)]

ghost use Rattle.text.specs.Promises.{ReadPromise, BeginPromise, PiecePromise, EndPromise};

use grammar::{Place, State};
use reader::{Kept, Reader};
use words::Refusal;

mod ending; // the answer at a text's end

// Why a text gives no block: 27, with the place of a byte; 28, 29 or 30; 31, with the row of the block.
#[derive(Clone, Copy)]
pub enum Unread {
    Misfit(u64),
    Refused(Refusal),
    Row(Refusal),
}

// Before the first byte.
#[tactic(auto, unfolding(crate::specs::Pieces::begun))]
pub fn begin() -> Reader
    ensures { BeginPromise result }
{
    Reader {
        state: State::Before(Place::AtHead),
        number: 0,
        at: 0,
        kept: Kept::default(),
    }
}

// One more piece of the text, with the output as working memory.
pub fn piece(reader: Reader, bytes: &[u8], output: &mut [i32]) -> Reader
    ensures { PiecePromise reader bytes.now output.old result output.new }
{
    let mut reader = reader;
    for b in bytes.iter().copied() {
        reader = reader::take(reader, b, output);
    }
    reader
}

// The block's length, with the block in the output, or all of it 0.
pub fn end(reader: Reader, output: &mut [i32]) -> Result<usize, Unread>
    ensures { EndPromise reader output.old result output.new }
{
    if grammar::is_fresh(reader.state) {
        ending::settle(reader.kept, output)
    } else {
        output.fill(0);
        Err(Unread::Misfit(reader.at))
    }
}

// A whole text: one piece.
pub fn read(bytes: &[u8], output: &mut [i32]) -> Result<usize, Unread>
    ensures { ReadPromise bytes.now output.old result output.new }
{
    end(piece(begin(), bytes, output), output)
}
