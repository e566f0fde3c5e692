// What is lent beside the block: the rows that speak of it, and what a rule leaves in the reasons.
#![tactic(auto)]

mod buffers; // row 11
mod reasons; // why an entry was made
mod states; // a state as a number

pub use buffers::{open_refusal, places, record_places};
pub use reasons::{bad_reasons, tell, wipe};
pub use states::{number_of, state_of};
