// [session.number] A session's state as a number, in and out. Programs in other languages and the console tell it so.
ghost use Rattle.memory.specs.Promises.{NumberOfPromise, StateOfPromise};

use record::State;

pub fn number_of(state: State) -> u32
    ensures { NumberOfPromise state result }
{
    match state {
        State::Open => 0,
        State::Valid => 1,
        State::Unsat => 2,
    }
}

// A number over 2 counts as 2: the session has ended.
pub fn state_of(number: u32) -> State
    ensures { StateOfPromise number result }
{
    match number {
        0 => State::Open,
        1 => State::Valid,
        _ => State::Unsat,
    }
}
