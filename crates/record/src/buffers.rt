// The record's two buffers: the last entry of a kind, and the places set to 0.
ghost use Rattle.std.specs.Prelude.{◌≡◌, ◌≤◌, pos, length};
ghost use Rattle.record.specs.Trail.{trail, wiped};
ghost use Rattle.record.specs.Promises.{LastKindPromise, WipePlacesPromise, WipePromise, ClearPromise};

// The place of the last entry of a kind.
pub fn last_kind(kinds: &[u8], count: usize, kind: u8) -> Option<usize>
    requires { count ≤ length kinds.now }
    ensures { LastKindPromise kinds.now count kind result }
{
    kinds[..count].iter().rposition(|k| *k == kind)
}

// Sets the places from .. to to `blank`, as far as there are such places.
pub fn wipe_places<T: Copy>(places: &mut [T], from: usize, to: usize, blank: T)
    ensures { WipePlacesPromise places.old from to blank places.new }
{
    for i in from..to.min(places.len()) {
        places[i] = blank;
    }
}

// The same of both buffers, with 0.
pub fn wipe(lits: &mut [i32], kinds: &mut [u8], from: usize, to: usize)
    ensures { WipePromise (trail lits.old kinds.old) from to (trail lits.new kinds.new) }
{
    wipe_places(lits, from, to, 0);
    wipe_places(kinds, from, to, 0)
}

// Sets the first n places of both buffers to 0.
pub fn clear(lits: &mut [i32], kinds: &mut [u8], n: usize)
    ensures { ClearPromise (trail lits.old kinds.old) n (trail lits.new kinds.new) }
{
    wipe(lits, kinds, 0, n)
}
