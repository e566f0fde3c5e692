// The lines of the input.
ghost use Rattle.std.specs.Prelude.{◌≤◌};
ghost use Rattle.console.specs.Room.{part_bytes};

use crate::line::Line;
use crate::room::PART_BYTES;
use std::io::Read;

// The part that was read last, and what of it is still to be taken in: from one place up to another.
#[derive(Drop)]
pub(crate) struct Input<R> {
    from: R,
    part: [u8; PART_BYTES],
    at: usize,
    size: usize,
    ghost ordered: { at ≤ size },
    ghost within: { size ≤ part_bytes },
}

impl<R: Read> Input<R> {
    pub(crate) fn new(from: R) -> Input<R> {
        Input {
            from,
            part: [0; PART_BYTES],
            at: 0,
            size: 0,
        }
    }

    // Reads the next part where nothing is left. Where nothing comes the input has ended, or can't be read.
    fn refill(&mut self) {
        if self.at == self.size {
            self.at = 0;
            self.size = self.from.read(&mut self.part).unwrap_or(0);
        }
    }

    // Takes in a line, and answers whether its line feed has come: the last one need not have it. A proved loop has to end, and nothing says that the
    // input does: so it has more turns than any run uses up.
    pub(crate) fn read_line(&mut self, line: &mut Line) -> bool {
        line.clear();
        for _ in 0..u64::MAX {
            self.refill();
            let bytes = &self.part[self.at..self.size];
            if bytes.is_empty() {
                return false;
            }
            match bytes.iter().position(|b| *b == b'\n') {
                Some(end) => {
                    line.push(&bytes[..end]);
                    self.at += end + 1;
                    return true;
                }
                None => {
                    line.push(bytes);
                    self.at = self.size;
                }
            }
        }
        false
    }
}
