// One text on standard input: its verdict, or the openings that win. Its arguments say which (ask.rt); tools/solve is the door for people.
#![tactic(auto)]

mod ask; // what the arguments ask for
mod intake; // the text, read into a block
mod list; // the openings that win
mod opening; // the literals of an opening
mod room; // how large the buffers are
mod run; // the verdict by the rules
mod said; // the lines of an answer
mod witness; // what an ended session shows

use ask::{Mode, Request};
use room::BLOCK_WORDS;
use text::Unread;
use words::Refusal;

// The refusals of a text that tell more than their number.
const MISFIT: u32 = 27;

const ROW: u32 = 31;

fn serve(rt: &(impl Print + Eprint), asked: Request, block: &[i32]) {
    match asked.mode {
        Mode::Solve => run::solve(rt, block, asked),
        Mode::Plain => said::opinion(rt, block, plain::solve(block)),
        Mode::List | Mode::Count => list::winners(rt, block, asked),
        Mode::Unknown => said::usage(rt),
    }
}

fn answer(
    rt: &(impl Print + Eprint),
    asked: Request,
    block: &[i32; BLOCK_WORDS],
    reading: Result<usize, Unread>,
) {
    match reading {
        Ok(length) => serve(rt, asked, words::take(block, length)),
        Err(Unread::Misfit(place)) => said::refused_at(rt, MISFIT, place),
        Err(Unread::Refused(refusal)) => said::refused(rt, refusal),
        Err(Unread::Row(Refusal(row))) => said::refused_at(rt, ROW, u64::from(row)),
    }
}

fn main(rt: HostRuntime) {
    let mut input = rt.stdin();
    let mut block = [0; BLOCK_WORDS];
    let reading = intake::read(&mut input, &mut block);
    answer(&rt, ask::asked(&rt), &block, reading);
}
