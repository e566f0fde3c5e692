// Literals read from a list of words.
ghost use Rattle.std.specs.Prelude.{◌≤◌, pos, nat_abs, get_or};
ghost use Rattle.formula.specs.Limits.{limits};
ghost use Rattle.record.specs.Promises.{LiteralAtPromise, OppositeAtPromise, TrueAtPromise};

use words::Literal;

// The literal at an index, its opposite, and its variable made true. Past the end there is the word 0.
pub fn literal_at(ws: &[i32], i: usize) -> Literal
    ensures { LiteralAtPromise ws.now i result }
{
    match ws.get(i) {
        Some(word) => Literal(*word),
        None => Literal(0),
    }
}

pub fn opposite_at(ws: &[i32], i: usize) -> Literal
    requires { nat_abs (get_or ws.now i (pos 0)) ≤ limits.variables }
    ensures { OppositeAtPromise ws.now i result }
{
    Literal(words::opposite(literal_at(ws, i).0))
}

pub fn true_at(ws: &[i32], i: usize) -> Literal
    requires { nat_abs (get_or ws.now i (pos 0)) ≤ limits.variables }
    ensures { TrueAtPromise ws.now i result }
{
    if words::negative_at(ws, i) {
        opposite_at(ws, i)
    } else {
        literal_at(ws, i)
    }
}
