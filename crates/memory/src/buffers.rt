// Row 11: how many places there are in what is lent, and whether they are enough.
ghost use Rattle.record.specs.Trail.{trail};
ghost use Rattle.memory.specs.Memory.{memory};
ghost use Rattle.memory.specs.Promises.{RecordPlacesPromise, PlacesPromise, OpenRefusalPromise};

use words::Refusal;

// How many places each of the record's two buffers has, and each of all three.
pub fn record_places(lits: &[i32], kinds: &[u8]) -> usize
    ensures { RecordPlacesPromise (trail lits.now kinds.now) result }
{
    lits.len().min(kinds.len())
}

pub fn places(lits: &[i32], kinds: &[u8], reasons: &[u32]) -> usize
    ensures { PlacesPromise (memory lits.now kinds.now reasons.now) result }
{
    record_places(lits, kinds).min(reasons.len())
}

// The block's rows and row 11, on buffers of so many places. A page asks them too.
pub fn open_refusal(block: &[i32], places: usize) -> Result<(), Refusal>
    ensures { OpenRefusalPromise block.now places result }
{
    formula::check(block)?;
    if places < words::size_at(block, 0) {
        return Err(Refusal(11));
    }
    Ok(())
}
