// The grammar of a formula's text, and the machine that reads it byte by byte.
#![tactic(auto)]

ghost use Rattle.std.specs.Prelude.{◌≡◌};
ghost use Rattle.grammar.specs.Machine.{silent as quiet};
ghost use Rattle.grammar.specs.declared.State.TheVariants.{Dead};

mod places; // what a word may begin with
mod machine; // where a byte leads from a state
mod states; // what is asked of a state

pub use machine::step;
pub use states::{is_alive, is_fresh, is_inside};

// Where the next word stands.
#[derive(Clone, Copy)]
pub enum Place {
    // the first of a line before the problem line; `cnf`; its two numbers
    AtHead,
    AtCnf,
    AtFirst,
    AtSecond,
    // the first of a line after it: may it be a quantifier?
    AtLine(bool),
    // a quantifier's first number; a further one, or 0; a literal, or 0
    AtNumber,
    AtNumbers,
    AtLiterals,
    // no word: the line ends here; may a quantifier's line come next?
    AtEnd(bool),
}

// Which number it is that is being read; a literal is negative or not.
#[derive(Clone, Copy)]
pub enum Slot {
    OfVariables,
    OfCount,
    OfGroup,
    OfClause(bool),
}

#[derive(Clone, Copy)]
pub enum State {
    // no text goes on so
    Dead,
    // at a line's start, where the text may end
    Fresh(bool),
    // before a word: where blanks may stand, and where one must
    Before(Place),
    Parted(Place),
    // in a number
    InNumber(Slot),
    // in a comment; in `cnf`; behind a minus
    Remark,
    AfterC,
    AfterCn,
    AfterMinus,
}

// What a byte says: nothing; that the number 0 stands, or the one whose digits were read; a quantifier; a clause's end.
#[derive(Clone, Copy)]
pub enum Says {
    Nothing,
    Zero(Slot),
    Value(Slot),
    Forall,
    Exists,
    Ends,
}

#[derive(Clone, Copy)]
pub struct Move {
    pub to: State,
    pub says: Says,
}

impl Move {
    pub(crate) fn silent(to: State) -> Move
        ensures { result ≡ quiet to }
    {
        Move {
            to,
            says: Says::Nothing,
        }
    }

    pub(crate) fn dead() -> Move
        ensures { result ≡ quiet Dead }
    {
        Move::silent(State::Dead)
    }
}
