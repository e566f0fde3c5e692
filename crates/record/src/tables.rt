// Tables by variable, each filled by one pass, so that a look at a variable costs one read.
ghost use Rattle.record.specs.Promises.{SignPromise, SignAtPromise, ValuesOfPromise};
ghost use Rattle.record.specs.Inner.Tables.{Written};

use crate::literals::literal_at;

// A place for each variable, and place 0, which is no variable's.
pub const PLACES: usize = formula::MAX_VARIABLES + 1;

// 1 for a positive word, 2 for a negative one; and of the word at an index, past the end 1. Numbers, as in the tables that callers lend: an enum
// would ask more of them.
pub fn sign(word: i32) -> u8
    ensures { SignPromise word result }
{
    if words::negative(word) { 2 } else { 1 }
}

pub fn sign_at(ws: &[i32], i: usize) -> u8
    ensures { SignAtPromise ws.now i result }
{
    sign(literal_at(ws, i).0)
}

// The value of each variable: 0 unassigned, 1 true, 2 false. Of the prefix's words it is the quantifier: 1 existential, 2 universal.
pub fn values_of(lits: &[i32], count: usize) -> [u8; PLACES]
    requires { Written lits.now count }
    ensures { ValuesOfPromise lits.now count result }
{
    let mut values = [0u8; PLACES];
    for word in &lits[..count] {
        values[words::size(*word)] = sign(*word);
    }
    values
}
