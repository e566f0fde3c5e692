// A reader between two pieces of a text as twelve numbers, so that a program in another language can keep it.
#![tactic(auto)]

mod inward; // from its numbers
mod outward; // to its numbers

pub use inward::reader_of;
pub use outward::write_reader;
