// The rules over checked input: which is due.
#![tactic(auto)]

mod by_literal; // tables by literal
mod variables; // the first monotone variable
mod occurrences; // the literals of the clauses with no true literal
mod ordered; // the due rule

pub use ordered::{due, due_conflict};
