// A line: its bytes as they come in, and its words, parted by spaces.
ghost use Rattle.std.specs.Prelude.{◌≤◌, length};
ghost use Rattle.std.specs.Iterator.{at_most};
ghost use Rattle.console.specs.Room.{line_bytes};

use crate::room::LINE_BYTES;

// The bytes that there was room for, and whether there were more.
#[derive(Drop)]
pub(crate) struct Line {
    bytes: [u8; LINE_BYTES],
    count: usize,
    long: bool,
    ghost within: { count ≤ line_bytes },
}

impl Line {
    pub(crate) fn new() -> Line {
        Line {
            bytes: [0; LINE_BYTES],
            count: 0,
            long: false,
        }
    }

    pub(crate) fn clear(&mut self) {
        self.count = 0;
        self.long = false;
    }

    // Puts bytes behind those that the line has.
    pub(crate) fn push(&mut self, bytes: &[u8]) {
        let free = &mut self.bytes[self.count..];
        let kept = bytes.len().min(free.len());
        free[..kept].copy_from_slice(&bytes[..kept]);
        self.count += kept;
        self.long |= kept < bytes.len();
    }

    // "Empty lines and lines that begin with `#`" get no answer, if they are not too long.
    pub(crate) fn is_silent(&self) -> bool {
        match self.bytes() {
            Some([b'#', ..]) => true,
            Some(bytes) => bytes.iter().all(|b| *b == b' '),
            None => false,
        }
    }

    // All of its bytes, if there was room for them.
    pub(crate) fn bytes(&self) -> Option<&[u8]> {
        if self.long {
            None
        } else {
            Some(&self.bytes[..self.count])
        }
    }
}

// The words of what is left of a line.
#[derive(Clone, Copy)]
pub(crate) struct Words<'a>(pub(crate) &'a [u8]);

impl<'a> Iterator for Words<'a> {
    type Item = &'a [u8];

    ghost remaining = { λ s. at_most (length s.0.now) };

    fn next(&mut self) -> Option<&'a [u8]> {
        let start = self.0.iter().position(|b| *b != b' ')?;
        let line = &self.0[start..];
        let end = line.iter().position(|b| *b == b' ').unwrap_or(line.len());
        let (word, rest) = line.split_at(end);
        self.0 = rest;
        Some(word)
    }
}
