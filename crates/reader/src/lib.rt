// A reader's state between two bytes of a text, and what one byte does to it.
#![tactic(auto)]

use grammar::State;

mod numbers; // numbers of any length in 32 bits
mod keep; // what is kept of a text
mod bytewise; // one byte

pub use bytewise::take;
// A state's numbers from outside are capped too.
pub use numbers::capped;

// What is kept of a text so far, beside the words that stand in the output: at first nothing. Counts go up to 2^31 + 1 and no further.
#[derive(Clone, Copy, Default)]
pub struct Kept {
    // the announced counts
    pub variables: u32,
    pub count: u32,
    // whether the group that is being read is universal
    pub universal: bool,
    // bound words, clause lines and literals seen
    pub bound: u32,
    pub clauses: u32,
    pub literals: u32,
    // whether some number was beyond 32 signed bits, and whether some bound number was over the announced count
    pub large: bool,
    pub over: bool,
}

// The reader's state between two bytes. Any words may be handed in.
#[derive(Clone, Copy)]
pub struct Reader {
    pub state: State,
    // the value of the digits so far, up to 2^31 + 1
    pub number: u32,
    // how many bytes were taken, up to 2^64 - 1
    pub at: u64,
    pub kept: Kept,
}
