// The rules' own types: the state of a search, the due rule, and where a rule leads.
use words::Literal;

// The state of a search.
#[derive(Clone, Copy)]
pub enum State {
    Open,
    Valid,
    Unsat,
}

// The due rule, with the place and the clause that decide it. Places and clauses count from 0.
#[derive(Clone, Copy)]
pub enum Rule {
    BacktrackExists { at: usize, clause: usize },
    Fail { clause: usize },
    Unit { literal: Literal, clause: usize },
    Monotone { literal: Literal },
    // The literal that proposal 0 stands for.
    Decide { first: Literal },
    BacktrackForall { at: usize },
    Succeed,
}

// Where a rule leaves a search: the record's length, and the state.
#[derive(Clone, Copy)]
pub struct Reached {
    pub count: usize,
    pub state: State,
}
