// A search: rule after rule on checked input. It knows nothing of sessions and revisions.
#![tactic(auto)]

mod asked; // whether it has ended, and whether a rule takes a proposal
mod searches; // the steps

pub use asked::{is_decide, is_over};
pub use searches::{Searched, search};
