// Signed words as literals. Every function answers for every word, the least one too.
#![tactic(auto)]

ghost use Rattle.words.specs.Promises.{NegativePromise, SizePromise, OppositePromise, SizeAtPromise, NegativeAtPromise, TakePromise, DropPromise};

// A literal is +v or -v; any other word may be handed in, and is refused where it matters.
#[derive(Clone, Copy)]
pub struct Literal(pub i32);

// Why a call is refused: the number of the first row of its table that applies. A number and no variant for each row, since the number is what the
// table, the theorems about which one is given, and the C interface speak of.
#[derive(Clone, Copy)]
pub struct Refusal(pub u32);

// Whether a word is below zero.
pub fn negative(x: i32) -> bool
    ensures { NegativePromise x result }
{
    x < 0
}

// The least word, whose negation is no word.
const LEAST: i32 = -2147483648;

const LEAST_SIZE: usize = 2147483648;

// A word's size. Below zero the least word is looked for first: it is never negated.
pub fn size(x: i32) -> usize
    ensures { SizePromise x result }
{
    if x >= 0 {
        return x as usize;
    }
    if x == LEAST {
        LEAST_SIZE
    } else {
        (-x) as usize
    }
}

// The opposite of a literal. The least word has none: it is answered with 0, which is no literal.
pub fn opposite(x: i32) -> i32
    ensures { OppositePromise x result }
{
    if x == LEAST { 0 } else { -x }
}

// The size of the word at an index, and whether it is below zero. Past the end there is the word 0.
pub fn size_at(ws: &[i32], i: usize) -> usize
    ensures { SizeAtPromise ws.now i result }
{
    ws.get(i).map_or(0, |word| size(*word))
}

pub fn negative_at(ws: &[i32], i: usize) -> bool
    ensures { NegativeAtPromise ws.now i result }
{
    ws.get(i).is_some_and(|word| negative(*word))
}

// The first n words, and the words after them. Of a list with fewer there are as many as it has.
pub fn take(ws: &[i32], n: usize) -> &[i32]
    ensures { TakePromise ws.now n result.now }
{
    &ws[..n.min(ws.len())]
}

pub fn drop(ws: &[i32], n: usize) -> &[i32]
    ensures { DropPromise ws.now n result.now }
{
    &ws[n.min(ws.len())..]
}
