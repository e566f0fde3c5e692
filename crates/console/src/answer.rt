// The text of an answer, put together before it is written, so that the answer goes out whole.
ghost use Rattle.std.specs.Prelude.{◌≤◌};
ghost use Rattle.console.specs.Room.{answer_bytes};

use crate::reply::Reply;
use crate::room::ANSWER_BYTES;
use std::fmt::Write;
use std::{fmt, io};

// The bytes that there are so far.
#[derive(Drop)]
pub(crate) struct Answer {
    bytes: [u8; ANSWER_BYTES],
    count: usize,
    ghost within: { count ≤ answer_bytes },
}

impl fmt::Write for Answer {
    fn write_str(&mut self, text: &str) -> fmt::Result {
        let bytes = text.as_bytes();
        let free = &mut self.bytes[self.count..];
        if free.len() < bytes.len() {
            return Err(fmt::Error);
        }
        free[..bytes.len()].copy_from_slice(bytes);
        self.count += bytes.len();
        Ok(())
    }
}

impl Answer {
    pub(crate) fn new() -> Answer {
        Answer {
            bytes: [0; ANSWER_BYTES],
            count: 0,
        }
    }

    // Writes a reply with its line feed. Every reply has room; one that had none would go out in parts.
    pub(crate) fn write(&mut self, rt: &impl Print, reply: Reply<'_>) -> io::Result<()> {
        self.count = 0;
        match writeln!(self, "{reply}") {
            Ok(()) => rt.write_all(&self.bytes[..self.count]),
            Err(_) => println!(rt; "{reply}"),
        }
    }
}
