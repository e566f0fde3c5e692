// The clauses by the tables: which is in conflict, and which is a unit clause.
#![tactic(auto)]

mod in_order; // the clauses, one after the other
mod found; // what a search finds
mod clauses; // the search

pub use clauses::{deciding, status, status_at};
pub use found::{Deciding, UnitClause};
pub use in_order::InOrder;
