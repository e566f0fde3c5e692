// The tables that a search is lent: what a step looks up by literal and by variable.
#![tactic(auto)]

mod lent; // all of it in one
mod by_literal; // what a literal is to its clause
mod by_variable; // the level of a variable

pub use by_literal::fill;
pub use by_variable::{NO_LEVEL, levels};
pub use lent::Tables;
