// What Decide may take: the first unassigned variable, and the open literals.
#![tactic(auto)]

mod variables; // the first unassigned variable
mod open; // the open literals

pub use open::{first_open, is_open};
pub use variables::first_unassigned;
