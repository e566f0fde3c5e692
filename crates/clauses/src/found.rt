// What a search finds.
use words::Literal;

// A unit clause, and its literal.
#[derive(Clone, Copy)]
pub struct UnitClause {
    pub literal: Literal,
    pub clause: usize,
}

// What the clauses make due: the lowest one in conflict, or with none in conflict the lowest unit clause, if there is one.
#[derive(Clone, Copy)]
pub enum Deciding {
    Conflict(usize),
    Quiet(Option<UnitClause>),
}
