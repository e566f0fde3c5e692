// A buffer of the desk, and how many of its first words are in use.
ghost use Rattle.std.specs.Prelude.{◌≤◌, length};

use crate::line::Words;
use crate::numbers::{Place, all_fit};

// So many words, and no more than there is room for. A type of its own, since a part of a room can't be lent past a ghost field.
#[derive(Clone, Copy)]
struct InUse<const ROOM: usize> {
    count: usize,
    ghost within: { count ≤ ROOM },
}

// The room has ROOM places.
#[derive(Drop)]
pub(crate) struct Buffer<'a, T, const ROOM: usize> {
    room: &'a mut [T],
    used: InUse<ROOM>,
}

// Stores the numbers of words, as far as they fit, and answers how many there are.
fn store<T: Place>(room: &mut [T], words: Words<'_>) -> usize
    ensures { result ≤ length room.old }
{
    let mut rest = words;
    for (i, place) in room.iter_mut().enumerate() {
        match rest.number() {
            Some(number) => *place = number,
            None => return i,
        }
    }
    room.len()
}

impl<'a, T: Place, const ROOM: usize> Buffer<'a, T, ROOM> {
    pub(crate) fn new(room: &'a mut [T; ROOM]) -> Buffer<'a, T, ROOM> {
        Buffer {
            room,
            used: InUse { count: 0 },
        }
    }

    // The words in use. They are never more than there are places, but of the room nothing is known here: so its length is looked at.
    pub(crate) fn words(&self) -> &[T] {
        &self.room[..self.used.count.min(self.room.len())]
    }

    pub(crate) fn words_mut(&mut self) -> &mut [T] {
        let count = self.used.count.min(self.room.len());
        &mut self.room[..count]
    }

    // The first words in use, as many as are asked for, or all.
    pub(crate) fn first(&self, most: usize) -> &[T] {
        let words = self.words();
        &words[..words.len().min(most)]
    }

    // Puts as many words in use as are asked for, or all that there are.
    pub(crate) fn use_first(&mut self, most: usize) -> &mut [T] {
        self.used = InUse {
            count: ROOM.min(most),
        };
        self.words_mut()
    }

    // Puts numbers in use, and answers how many, if each of them fits and there is room for all. All are looked at before the first is stored, so
    // that a line that doesn't fit changes nothing.
    pub(crate) fn set(&mut self, words: Words<'_>) -> Option<usize> {
        if !all_fit::<T>(words, ROOM) {
            return None;
        }
        let count = store(self.room, words).min(ROOM);
        self.used = InUse { count };
        Some(count)
    }
}
