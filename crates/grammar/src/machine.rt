// The machine: where one byte leads from a state, and what it says.
#![tactic(auto, using(crate::proofs::Moves::moves, std::proofs::lemmas::Bool::Decides::nat_tests), unfolding(crate::specs::Grammar::digit, crate::specs::Grammar::nonzero, crate::specs::Grammar::printable, crate::specs::Machine::blank, crate::specs::Machine::between, crate::specs::Machine::parted, crate::specs::Machine::past))]

ghost use Rattle.std.specs.Prelude.{◌≡◌};
ghost use Rattle.grammar.specs.Machine.{blank, between, parted, past, move};
ghost use Rattle.grammar.specs.Promises.{StepPromise};
ghost use Rattle.grammar.specs.declared.State.TheVariants.{InNumber, Remark, AfterC, AfterCn, AfterMinus};

use crate::places::choose_at;
use crate::{Move, Place, Says, Slot, State};

fn is_blank(b: u8) -> bool
    ensures { result ≡ blank b }
{
    matches!(b, b' ' | b'\t')
}

// Before a word: blanks may stand, or one must.
fn between_words(place: Place, b: u8) -> Move
    ensures { result ≡ between place b }
{
    if is_blank(b) {
        Move::silent(State::Before(place))
    } else {
        choose_at(place, b)
    }
}

fn parted_by(place: Place, b: u8) -> State
    ensures { result ≡ parted place b }
{
    if is_blank(b) {
        State::Before(place)
    } else {
        State::Dead
    }
}

// Past a number.
fn past_number(slot: Slot, b: u8) -> State
    ensures { result ≡ past slot b }
{
    match slot {
        Slot::OfVariables => parted_by(Place::AtSecond, b),
        Slot::OfCount => between_words(Place::AtEnd(true), b).to,
        Slot::OfGroup => parted_by(Place::AtNumbers, b),
        Slot::OfClause(_) => parted_by(Place::AtLiterals, b),
    }
}

fn in_number(slot: Slot, b: u8) -> Move
    ensures { result ≡ move (InNumber slot) b }
{
    match b {
        b'0'..=b'9' => Move::silent(State::InNumber(slot)),
        _ => Move {
            to: past_number(slot, b),
            says: Says::Value(slot),
        },
    }
}

fn in_remark(b: u8) -> State
    ensures { result ≡ (move Remark b).to }
{
    match b {
        b' '..=b'~' | b'\t' => State::Remark,
        b'\n' => State::Before(Place::AtHead),
        _ => State::Dead,
    }
}

fn after_c(b: u8) -> State
    ensures { result ≡ (move AfterC b).to }
{
    if b == b'n' {
        State::AfterCn
    } else {
        State::Dead
    }
}

fn after_cn(b: u8) -> State
    ensures { result ≡ (move AfterCn b).to }
{
    if b == b'f' {
        State::Parted(Place::AtFirst)
    } else {
        State::Dead
    }
}

fn after_minus(b: u8) -> State
    ensures { result ≡ (move AfterMinus b).to }
{
    match b {
        b'1'..=b'9' => State::InNumber(Slot::OfClause(true)),
        _ => State::Dead,
    }
}

// One byte.
pub fn step(state: State, b: u8) -> Move
    ensures { StepPromise state b result }
{
    match state {
        State::Dead => Move::silent(State::Dead),
        State::Fresh(more) => between_words(Place::AtLine(more), b),
        State::Before(place) => between_words(place, b),
        State::Parted(place) => Move::silent(parted_by(place, b)),
        State::InNumber(slot) => in_number(slot, b),
        State::Remark => Move::silent(in_remark(b)),
        State::AfterC => Move::silent(after_c(b)),
        State::AfterCn => Move::silent(after_cn(b)),
        State::AfterMinus => Move::silent(after_minus(b)),
    }
}
