// The text on standard input, read into a block piece by piece.
use crate::room::{BLOCK_WORDS, PIECE_BYTES};
use reader::Reader;
use std::io::Read;
use text::Unread;

// Where nothing comes the input has ended, or can't be read. A proved loop has to end, and nothing says that the input does: so it has more turns
// than any run uses up.
fn pieces(input: &mut impl Read, block: &mut [i32; BLOCK_WORDS]) -> Reader {
    let mut bytes = [0; PIECE_BYTES];
    let mut reader = text::begin();
    for _ in 0..u64::MAX {
        match input.read(&mut bytes) {
            Ok(0) | Err(_) => break,
            Ok(size) => reader = text::piece(reader, &bytes[..size], block),
        }
    }
    reader
}

pub(crate) fn read(input: &mut impl Read, block: &mut [i32; BLOCK_WORDS]) -> Result<usize, Unread> {
    let reader = pieces(input, block);
    text::end(reader, block)
}
