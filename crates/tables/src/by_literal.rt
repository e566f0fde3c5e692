// The table of statuses, filled by one pass. What a literal is to its clause is one read, at a place that the word itself gives.
ghost use Rattle.std.specs.Prelude.{◌≡◌};
ghost use Rattle.record.specs.Inner.Ready.{Bound};
ghost use Rattle.tables.specs.Promises.{FillPromise};
ghost use Rattle.tables.specs.Inner.ByLiteral.{status_of, Blank};

use formula::{LITERAL_PLACES, MIDDLE};
use record::{PLACES, sign};

// What a literal is to its clause, by its variable's value and quantifier and the literal's sign: 0 false, 1 true,
// 2 unassigned existential, 3 unassigned universal. A number, as the lent table holds it.
fn status_of(value: u8, quantifier: u8, sign: u8) -> u8
    ensures { result ≡ status_of value quantifier sign }
{
    match (value, quantifier) {
        (0, 2) => 3,
        (0, _) => 2,
        _ if value == sign => 1,
        _ => 0,
    }
}

// Writes what each literal of the prefix's variables is to its clause.
pub fn fill(prefix: &[i32], values: &[u8; PLACES], statuses: &mut [u8; LITERAL_PLACES])
    requires bound { Bound prefix.now }
    requires blank { Blank statuses.old }
    ensures { FillPromise prefix.now values.now statuses.new }
{
    for word in prefix {
        let v = words::size(*word);
        let value = values[v];
        let quantifier = sign(*word);
        statuses[MIDDLE + v] = status_of(value, quantifier, 1);
        statuses[MIDDLE - v] = status_of(value, quantifier, 2);
    }
}
