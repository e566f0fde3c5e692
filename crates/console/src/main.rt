// The console: one desk, served line by line on standard input until that ends.
#![tactic(auto)]

mod answer; // the text of an answer
mod buffer; // a buffer, and how much of it is in use
mod command; // what a line asks for
mod desk; // the desk, and what a command does with it
mod input; // the lines of the input
mod line; // a line's bytes and words
mod numbers; // a word's number
mod reply; // what a line is answered
mod room; // how large all that is

use answer::Answer;
use buffer::Buffer;
use desk::Desk;
use input::Input;
use line::Line;
use room::{
    BLOCK_WORDS, INDEX_WORDS, NUMBER_WORDS, OUTPUT_WORDS, PREFERRED_WORDS, RECORD_PLACES,
    TEXT_BYTES,
};
use std::io;
use std::io::Read;

// Each line is answered as soon as it has come in, until the input ends or an answer can't be written. A proved loop has to end, and nothing says that
// the input does: so it has more turns than any run uses up.
fn serve(
    rt: &impl Print,
    input: &mut Input<impl Read>,
    line: &mut Line,
    desk: &mut Desk<'_>,
    answer: &mut Answer,
) -> io::Result<()> {
    for _ in 0..u64::MAX {
        let ended = input.read_line(line);
        if !line.is_silent() {
            answer.write(rt, desk.answer(line.bytes()))?;
        }
        if !ended {
            break;
        }
    }
    Ok(())
}

// The console ends with status 0 even if it can't write.
fn main(rt: HostRuntime) {
    let mut block = [0; BLOCK_WORDS];
    let mut literals = [0; RECORD_PLACES];
    let mut kinds = [0; RECORD_PLACES];
    let mut reasons = [0; RECORD_PLACES];
    let mut output = [0; OUTPUT_WORDS];
    let mut preferred = [0; PREFERRED_WORDS];
    let mut text = [0; TEXT_BYTES];
    let mut trues = [0; NUMBER_WORDS];
    let mut opens = [0; NUMBER_WORDS];
    let mut index = [0; INDEX_WORDS];
    let mut desk = Desk {
        session: desk::FIRST,
        block: Buffer::new(&mut block),
        literals: Buffer::new(&mut literals),
        kinds: Buffer::new(&mut kinds),
        reasons: Buffer::new(&mut reasons),
        output: Buffer::new(&mut output),
        preferred: Buffer::new(&mut preferred),
        text: Buffer::new(&mut text),
        trues: Buffer::new(&mut trues),
        opens: Buffer::new(&mut opens),
        index: Buffer::new(&mut index),
    };
    let mut input = Input::new(rt.stdin());
    let mut line = Line::new();
    let mut answer = Answer::new();
    let _ = serve(&rt, &mut input, &mut line, &mut desk, &mut answer);
}
