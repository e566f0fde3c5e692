// The text of a block: what a reader of texts gives back word for word.
#![tactic(auto)]

ghost use Rattle.writer.specs.Promises.{WritePromise};

use words::Refusal;

mod writing; // the lines, byte by byte

// A block's text in the output's first bytes, if it has room for all of it: how many bytes there are.
pub fn write(block: &[i32], output: &mut [u8]) -> Result<usize, Refusal>
    ensures { WritePromise block.now output.old result output.new }
{
    formula::check(block)?;
    let length = writing::text(&mut [], block);
    if output.len() < length {
        return Err(Refusal(30));
    }
    Ok(writing::text(output, block))
}
