// One rule applied to the record in its lent buffers.
#![tactic(auto)]

mod moves; // what a rule does to the record
mod buffers; // the cut, and the entry more
mod applied; // one rule applied

pub use applied::apply;
pub use buffers::append;
