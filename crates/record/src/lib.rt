// The record in its lent buffers: what is read from it, and row 12.
#![tactic(auto)]

mod rule; // the state of a search, the rules, where a rule leads
mod literals; // literals read from a list of words
mod tables; // tables by variable
mod buffers; // the record's two buffers
mod check; // row 12

pub use buffers::{clear, last_kind, wipe, wipe_places};
pub use check::bad_record;
pub use literals::{literal_at, opposite_at, true_at};
pub use rule::{Reached, Rule, State};
pub use tables::{PLACES, sign, sign_at, values_of};
