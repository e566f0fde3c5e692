// What a word may begin with, place by place.
#![tactic(auto, using(std::proofs::lemmas::Bool::Decides::nat_tests), unfolding(crate::specs::Grammar::nonzero, crate::specs::Machine::rows, crate::specs::Machine::choose))]

ghost use Rattle.std.specs.Prelude.{◌≡◌, true, [], ◌∷◌};
ghost use Rattle.grammar.specs.Grammar.{'0'};
ghost use Rattle.grammar.specs.Machine.{starts, on, rows, choose};
ghost use Rattle.grammar.specs.declared.Place.TheVariants.{AtHead, AtCnf, AtLine, AtNumber, AtLiterals, AtEnd};

use crate::{Move, Place, Says, Slot, State};

fn at_head(b: u8) -> Move
    ensures { result ≡ choose (rows AtHead) b }
{
    match b {
        b'c' => Move::silent(State::Remark),
        b'p' => Move::silent(State::Parted(Place::AtCnf)),
        _ => Move::dead(),
    }
}

fn at_cnf(b: u8) -> Move
    ensures { result ≡ choose (rows AtCnf) b }
{
    match b {
        b'c' => Move::silent(State::AfterC),
        _ => Move::dead(),
    }
}

// A number that may be 0, or 0 as a line's end: what the digit 0 says is given.
fn at_digit(slot: Slot, zero: Move, b: u8) -> Move
    ensures { result ≡ choose (starts slot ∷ on '0' zero ∷ []) b }
{
    match b {
        b'1'..=b'9' => Move::silent(State::InNumber(slot)),
        b'0' => zero,
        _ => Move::dead(),
    }
}

fn at_number(b: u8) -> Move
    ensures { result ≡ choose (rows AtNumber) b }
{
    match b {
        b'1'..=b'9' => Move::silent(State::InNumber(Slot::OfGroup)),
        _ => Move::dead(),
    }
}

fn at_literals(b: u8) -> Move
    ensures { result ≡ choose (rows AtLiterals) b }
{
    match b {
        b'1'..=b'9' => Move::silent(State::InNumber(Slot::OfClause(false))),
        b'0' => Move {
            to: State::Before(Place::AtEnd(false)),
            says: Says::Ends,
        },
        b'-' => Move::silent(State::AfterMinus),
        _ => Move::dead(),
    }
}

// The first word of a line where a quantifier may stand.
fn at_first_line(b: u8) -> Move
    ensures { result ≡ choose (rows (AtLine true)) b }
{
    match b {
        b'a' => Move {
            to: State::Parted(Place::AtNumber),
            says: Says::Forall,
        },
        b'e' => Move {
            to: State::Parted(Place::AtNumber),
            says: Says::Exists,
        },
        _ => at_literals(b),
    }
}

fn at_end(more: bool, b: u8) -> Move
    ensures { result ≡ choose (rows (AtEnd more)) b }
{
    match b {
        b'\n' => Move::silent(State::Fresh(more)),
        _ => Move::dead(),
    }
}

pub(crate) fn choose_at(place: Place, b: u8) -> Move
    ensures { result ≡ choose (rows place) b }
{
    match place {
        Place::AtHead => at_head(b),
        Place::AtCnf => at_cnf(b),
        Place::AtFirst => {
            let zero = Move {
                to: State::Parted(Place::AtSecond),
                says: Says::Zero(Slot::OfVariables),
            };
            at_digit(Slot::OfVariables, zero, b)
        }
        Place::AtSecond => {
            let zero = Move {
                to: State::Before(Place::AtEnd(true)),
                says: Says::Zero(Slot::OfCount),
            };
            at_digit(Slot::OfCount, zero, b)
        }
        Place::AtLine(true) => at_first_line(b),
        Place::AtLine(false) | Place::AtLiterals => at_literals(b),
        Place::AtNumber => at_number(b),
        Place::AtNumbers => at_digit(
            Slot::OfGroup,
            Move::silent(State::Before(Place::AtEnd(true))),
            b,
        ),
        Place::AtEnd(more) => at_end(more, b),
    }
}
