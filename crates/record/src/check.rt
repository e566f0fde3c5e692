// Row 12, over the whole record: linear in the record and the prefix.
ghost use Rattle.std.specs.Prelude.{◌≡◌};
ghost use Rattle.formula.specs.Limits.{limits};
ghost use Rattle.words.specs.Lists.{any};
ghost use Rattle.record.specs.Trail.{trail, record_of};
ghost use Rattle.record.specs.Check.{bad_kind};
ghost use Rattle.record.specs.Promises.{BadRecordPromise};
ghost use Rattle.record.specs.Inner.Ready.{OnBuffers};
ghost use Rattle.record.specs.Inner.Buffers.{KindsLent, wrong_kind};

use crate::tables::values_of;

// Whether a kind is above 2, or 1 on a universal or 2 on an existential variable.
fn wrong_kind(kind: u8, quantifier: u8) -> bool
    ensures { result ≡ wrong_kind kind quantifier }
{
    match kind {
        0 => false,
        1 => quantifier == 2,
        2 => quantifier != 2,
        _ => true,
    }
}

// Whether some entry has a wrong kind.
fn bad_kinds(prefix: &[i32], lits: &[i32], kinds: &[u8], count: usize) -> bool
    requires { KindsLent prefix.now (trail lits.now kinds.now) count }
    ensures { result ≡ any (bad_kind prefix.now) (record_of (trail lits.now kinds.now) count) }
{
    let quantifiers = values_of(prefix, prefix.len());
    lits[..count].iter().zip(kinds).any(|(word, kind)| wrong_kind(
        *kind,
        quantifiers[words::size(*word)],
    ))
}

// Whether the record is turned away.
pub fn bad_record(block: &[i32], lits: &[i32], kinds: &[u8], count: usize) -> bool
    requires { OnBuffers limits block.now (trail lits.now kinds.now) }
    ensures { BadRecordPromise block.now (trail lits.now kinds.now) count result }
{
    let prefix = formula::prefix(block);
    let n = prefix.len();
    if n < count {
        return true;
    }
    let written = words::take(lits, count);
    if formula::some_stranger(written, n) {
        return true;
    }
    if formula::variable_twice(written) {
        return true;
    }
    bad_kinds(prefix, lits, kinds, count)
}
