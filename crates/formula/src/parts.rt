// Rows 5 to 10 and 23: the prefix, the clause ends and the literals, each a slice of its own.
ghost use Rattle.std.specs.Prelude.{◌≡◌, false, ◌≤◌, length};
ghost use Rattle.words.specs.Rows.{refusal_of};
ghost use Rattle.formula.specs.Promises.{SomeStrangerPromise};
ghost use Rattle.formula.specs.Limits.{limits};
ghost use Rattle.formula.specs.Block.{bad_ends};
ghost use Rattle.formula.specs.Check.{checked_of};
ghost use Rattle.formula.specs.Inner.Tables.{last_negative, part_rows};

use words::Refusal;

// Whether some word is 0 or of size over n.
pub fn some_stranger(ws: &[i32], n: usize) -> bool
    ensures { SomeStrangerPromise ws.now n result }
{
    ws.iter().any(|w| {
        let v = words::size(*w);
        v == 0 || n < v
    })
}

// Whether there is a last word, and it is negative.
fn last_negative(prefix: &[i32]) -> bool
    ensures { result ≡ last_negative prefix.now }
{
    prefix.last().is_some_and(|word| words::negative(*word))
}

// Whether an end is negative, falls or is over total, or the last is not total.
fn bad_ends(ends: &[i32], total: usize) -> bool
    ensures { result ≡ bad_ends total 0 ends.now }
{
    let mut from = 0;
    for word in ends {
        let end = words::size(*word);
        if words::negative(*word) || end < from || total < end {
            return true;
        }
        from = end;
    }
    from != total
}

// The prefix has a word for each variable, and the literals are all that the ends may reach.
pub(crate) fn check_parts(prefix: &[i32], ends: &[i32], literals: &[i32]) -> Result<(), Refusal>
    requires { length prefix.now ≤ limits.variables }
    ensures { result ≡ checked_of (refusal_of (part_rows prefix.now ends.now literals.now)) }
{
    if some_stranger(prefix, prefix.len()) {
        return Err(Refusal(5));
    }
    if crate::marks::variable_twice(prefix) {
        return Err(Refusal(6));
    }
    if last_negative(prefix) {
        return Err(Refusal(7));
    }
    if bad_ends(ends, literals.len()) {
        return Err(Refusal(8));
    }
    if some_stranger(literals, prefix.len()) {
        return Err(Refusal(9));
    }
    crate::marks::pair_row(literals, ends)
}
