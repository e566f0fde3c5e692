// The block of a text, laid out from the parts that stand in the output.
#![tactic(auto)]

ghost use Rattle.std.specs.Prelude.{◌≡◌, ◌+◌};
ghost use Rattle.std.proofs.lemmas.List.Edits.{sets};
ghost use Rattle.laid.specs.Block.{header};
ghost use Rattle.laid.specs.Inner.Ready.{Ready, Headed};
ghost use Rattle.laid.specs.Promises.{LayPromise};

mod prefix; // the completed prefix

// The header's six words.
fn write_header(output: &mut [i32], v: usize, c: usize, t: usize)
    requires { Headed output.old v c t }
    ensures { output.new ≡ sets output.old 0 (header v c t) }
{
    let words = [
        v as i32,
        c as i32,
        t as i32,
        6,
        (6 + v) as i32,
        (6 + v + c) as i32,
    ];
    output[..words.len()].copy_from_slice(&words);
}

// The block, out of the parts that stand in the output.
#[tactic(auto, unfolding(crate::specs::Block::laid_in))]
pub fn lay(output: &mut [i32], v: usize, bound: usize, c: usize, t: usize)
    requires ready { Ready output.old v bound (6 + v + c) t }
    requires headed { Headed output.old v c t }
    ensures { LayPromise output.old v bound c t output.new }
{
    prefix::complete(output, v, bound, 6 + v + c, t);
    write_header(output, v, c, t);
}
