// The first unassigned variable.
ghost use Rattle.record.specs.Inner.Ready.{Bound};
ghost use Rattle.choice.specs.Promises.{FirstUnassignedPromise};

use record::{PLACES, true_at};
use words::Literal;

// The first unassigned variable in prefix order, true.
pub fn first_unassigned(prefix: &[i32], values: &[u8; PLACES]) -> Option<Literal>
    requires { Bound prefix.now }
    ensures { FirstUnassignedPromise prefix.now values.now result }
{
    let first = prefix
        .iter()
        .position(|word| values[words::size(*word)] == 0)?;
    Some(true_at(prefix, first))
}
