// The first monotone variable.
ghost use Rattle.std.specs.Prelude.{◌≡◌, ◌≤◌, nat_abs};
ghost use Rattle.formula.specs.Limits.{limits};
ghost use Rattle.record.specs.Inner.Ready.{Bound};
ghost use Rattle.choice.specs.First.{first_of};
ghost use Rattle.rules.specs.Inner.Variables.{monotone_in};

use crate::by_literal::{LITERAL_PLACES, Signs, signs_at};
use record::PLACES;
use words::Literal;

// The literal that a variable takes if it is unassigned and occurs with one sign only. An existential one takes that sign, a universal one the
// opposite: with positive occurrences only that is the prefix's own word, with negative ones only its opposite.
fn monotone(word: i32, values: &[u8; PLACES], occurs: &[u8; LITERAL_PLACES]) -> Option<Literal>
    requires { nat_abs word ≤ limits.variables }
    ensures { result ≡ monotone_in values.now occurs.now word }
{
    let v = words::size(word);
    if values[v] != 0 {
        return None;
    }
    match signs_at(occurs, v) {
        Signs::Positive => Some(Literal(word)),
        Signs::Negative => Some(Literal(words::opposite(word))),
        Signs::Neither | Signs::Both => None,
    }
}

// That of the first such variable of the prefix.
pub(crate) fn first_monotone(
    prefix: &[i32],
    values: &[u8; PLACES],
    occurs: &[u8; LITERAL_PLACES],
) -> Option<Literal>
    requires { Bound prefix.now }
    ensures { result ≡ first_of (monotone_in values.now occurs.now) prefix.now }
{
    prefix
        .iter()
        .find_map(|word| monotone(*word, values, occurs))
}
