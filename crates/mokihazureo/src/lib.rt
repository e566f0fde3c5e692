// The library's calls for programs in other languages: numbers and slices in; a status, and numbers in a lent array, out.
#![tactic(auto)]

ghost use Rattle.record.specs.Trail.{trail};
ghost use Rattle.memory.specs.Memory.{memory};
ghost use Rattle.counted.specs.Lent as counted;
ghost use Rattle.listing.specs.Page.{page_memory};
ghost use Rattle.answers.specs.Answers.{session_of};
ghost use Rattle.mokihazureo.specs.Called.{lent};
ghost use Rattle.mokihazureo.specs.Promises.{CheckPromise, OpenPromise, StepPromise, RunPromise, CountedPromise, PagePromise, ShownPromise, PlainPromise, ReadPromise, BeginPromise, PiecePromise, EndPromise, WritePromise};

use session::Revision;
use words::Literal;

// 0 for an accepted block, else the number of its refusal.
#[unsafe(no_mangle)]
pub extern "C" fn moki_check(block: &[i32]) -> u32
    ensures { CheckPromise block.now result }
{
    match formula::check(block) {
        Ok(()) => 0,
        Err(refusal) => refusal.0,
    }
}

// A fresh session at a first revision; its numbers are written to the answer.
#[unsafe(no_mangle)]
pub extern "C" fn moki_open(
    block: &[i32],
    lits: &mut [i32],
    kinds: &mut [u8],
    reasons: &mut [u32],
    first: u64,
    answer: &mut [u64; 3],
) -> u32
    ensures { OpenPromise block.now (memory lits.old kinds.old reasons.old) first answer.old result (lent (memory lits.new kinds.new reasons.new) answer.new) }
{
    let outcome = session::open(block, lits, kinds, reasons, Revision(first));
    answers::opened(outcome, answer)
}

// One step of the session that the first three numbers are; its reason is the answer's fourth number.
#[unsafe(no_mangle)]
pub extern "C" fn moki_step(
    length: usize,
    revision: u64,
    state: u32,
    block: &[i32],
    lits: &mut [i32],
    kinds: &mut [u8],
    reasons: &mut [u32],
    seen: u64,
    proposal: i32,
    answer: &mut [u64; 4],
) -> u32
    ensures { StepPromise (session_of length revision state) block.now (memory lits.old kinds.old reasons.old) seen proposal answer.old result (lent (memory lits.new kinds.new reasons.new) answer.new) }
{
    let before = answers::session_of(length, revision, state);
    let outcome = before.step(
        block,
        lits,
        kinds,
        reasons,
        Revision(seen),
        Literal(proposal),
    );
    answers::stepped(outcome, answer)
}

// At most `budget` steps; the count of accepted steps is the answer's fourth number, and the last one's reason the fifth.
#[unsafe(no_mangle)]
pub extern "C" fn moki_run(
    length: usize,
    revision: u64,
    state: u32,
    block: &[i32],
    lits: &mut [i32],
    kinds: &mut [u8],
    reasons: &mut [u32],
    seen: u64,
    budget: u32,
    preferred: &[i32],
    answer: &mut [u64; 5],
) -> u32
    ensures { RunPromise (session_of length revision state) block.now (memory lits.old kinds.old reasons.old) seen budget preferred.now answer.old result (lent (memory lits.new kinds.new reasons.new) answer.new) }
{
    let before = answers::session_of(length, revision, state);
    let at = Revision(seen);
    let outcome = before.run(block, lits, kinds, reasons, at, budget, preferred);
    answers::ran(outcome, answer)
}

// The same run, counted: it is lent each clause's numbers and an index besides.
#[unsafe(no_mangle)]
pub extern "C" fn moki_counted(
    length: usize,
    revision: u64,
    state: u32,
    block: &[i32],
    lits: &mut [i32],
    kinds: &mut [u8],
    reasons: &mut [u32],
    trues: &mut [u32],
    opens: &mut [u32],
    index: &mut [u32],
    seen: u64,
    budget: u32,
    preferred: &[i32],
    answer: &mut [u64; 5],
) -> u32
    ensures { CountedPromise (session_of length revision state) block.now (counted.lent (memory lits.old kinds.old reasons.old) trues.old opens.old index.old) seen budget preferred.now answer.old result (counted.lent (memory lits.new kinds.new reasons.new) trues.new opens.new index.new) answer.new }
{
    let before = answers::session_of(length, revision, state);
    let page = Revision(seen);
    let outcome = counted::run(
        before, block, lits, kinds, reasons, trues, opens, index, page, budget, preferred,
    );
    answers::ran(outcome, answer)
}

// The winning openings from `start` on; where the next page begins, the entries written, and 1 if paused are written to the answer.
#[unsafe(no_mangle)]
pub extern "C" fn moki_page(
    block: &[i32],
    lits: &mut [i32],
    kinds: &mut [u8],
    start: u32,
    preferred: &[i32],
    budget: u32,
    output: &mut [u32],
    answer: &mut [u64; 3],
) -> u32
    ensures { PagePromise block.now (page_memory lits.old kinds.old output.old) start preferred.now budget answer.old result (lent (page_memory lits.new kinds.new output.new) answer.new) }
{
    let outcome = listing::page(block, lits, kinds, start, preferred, budget, output);
    answers::paged(outcome, answer)
}

// What an ended session shows: the first group's literals go to the output, and their count to the answer.
#[unsafe(no_mangle)]
pub extern "C" fn moki_shown(
    length: usize,
    revision: u64,
    state: u32,
    block: &[i32],
    lits: &[i32],
    kinds: &[u8],
    output: &mut [i32],
    answer: &mut [u64; 1],
) -> u32
    ensures { ShownPromise (session_of length revision state) block.now (trail lits.now kinds.now) output.old answer.old result (lent output.new answer.new) }
{
    let before = answers::session_of(length, revision, state);
    let outcome = shown::shown(before, block, lits, kinds, output);
    answers::showed(outcome, answer)
}

// A second opinion: the state's number is written to the answer.
#[unsafe(no_mangle)]
pub extern "C" fn moki_plain(block: &[i32], answer: &mut [u64; 1]) -> u32
    ensures { PlainPromise block.now answer.old result answer.new }
{
    let outcome = plain::solve(block);
    answers::solved(outcome, answer)
}

// A whole text, read into a block; the block's length, the place or the row is written to the answer.
#[unsafe(no_mangle)]
pub extern "C" fn moki_read(bytes: &[u8], output: &mut [i32], answer: &mut [u64; 1]) -> u32
    ensures { ReadPromise bytes.now output.old answer.old result (lent output.new answer.new) }
{
    let outcome = text::read(bytes, output);
    answers::told(outcome, answer)
}

// A text in pieces: the reader before the first byte, as numbers.
#[unsafe(no_mangle)]
pub extern "C" fn moki_read_begin(state: &mut [u64; 12])
    ensures { BeginPromise state.old state.new }
{
    saved::write_reader(text::begin(), state);
}

// One more piece, with the output as working memory.
#[unsafe(no_mangle)]
pub extern "C" fn moki_read_piece(state: &mut [u64; 12], bytes: &[u8], output: &mut [i32])
    ensures { PiecePromise state.old bytes.now output.old (lent output.new state.new) }
{
    let before = saved::reader_of(state);
    let after = text::piece(before, bytes, output);
    saved::write_reader(after, state);
}

// The end: what a whole text would answer.
#[unsafe(no_mangle)]
pub extern "C" fn moki_read_end(state: &[u64; 12], output: &mut [i32], answer: &mut [u64; 1]) -> u32
    ensures { EndPromise state.now output.old answer.old result (lent output.new answer.new) }
{
    let before = saved::reader_of(state);
    let outcome = text::end(before, output);
    answers::told(outcome, answer)
}

// A block, written as a text; the text's length is written to the answer.
#[unsafe(no_mangle)]
pub extern "C" fn moki_write(block: &[i32], output: &mut [u8], answer: &mut [u64; 1]) -> u32
    ensures { WritePromise block.now output.old answer.old result (lent output.new answer.new) }
{
    let outcome = writer::write(block, output);
    answers::wrote(outcome, answer)
}
