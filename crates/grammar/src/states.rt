// What is asked of a state.
#![tactic(auto, unfolding(crate::specs::Machine::fresh, crate::specs::Machine::alive))]

ghost use Rattle.grammar.specs.Promises.{InsidePromise, FreshPromise, AlivePromise};

use crate::State;

// In a number.
pub fn is_inside(state: State) -> bool
    ensures { InsidePromise state result }
{
    matches!(state, State::InNumber(_))
}

// At a line's start, where a text may end.
pub fn is_fresh(state: State) -> bool
    ensures { FreshPromise state result }
{
    matches!(state, State::Fresh(_))
}

// Some text goes on so.
pub fn is_alive(state: State) -> bool
    ensures { AlivePromise state result }
{
    !matches!(state, State::Dead)
}
