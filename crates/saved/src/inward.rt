// A reader from its numbers: one over the last of a list counts as the last one, and one that is no kind's as Dead.
#![tactic(auto, using(std::proofs::lemmas::Bool::Decides::nat_tests), unfolding(crate::specs::Numbers::place_of, crate::specs::Numbers::slot_of, crate::specs::Numbers::state_of, crate::specs::Numbers::kept_of, crate::specs::Numbers::reader_of))]

ghost use Rattle.std.specs.Prelude.{◌≡◌};
ghost use Rattle.saved.specs.Numbers.{bit_of, place_of, slot_of, state_of};
ghost use Rattle.saved.specs.Promises.{ReaderOfPromise};

use grammar::{Place, Slot, State};
use reader::{Kept, Reader, capped};

fn bit_of(n: u64) -> bool
    ensures { result ≡ bit_of n }
{
    n != 0
}

fn place_of(n: u64) -> Place
    ensures { result ≡ place_of n }
{
    match n {
        0 => Place::AtHead,
        1 => Place::AtCnf,
        2 => Place::AtFirst,
        3 => Place::AtSecond,
        4 => Place::AtLine(false),
        5 => Place::AtLine(true),
        6 => Place::AtNumber,
        7 => Place::AtNumbers,
        8 => Place::AtLiterals,
        9 => Place::AtEnd(false),
        _ => Place::AtEnd(true),
    }
}

fn slot_of(n: u64) -> Slot
    ensures { result ≡ slot_of n }
{
    match n {
        0 => Slot::OfVariables,
        1 => Slot::OfCount,
        2 => Slot::OfGroup,
        3 => Slot::OfClause(false),
        _ => Slot::OfClause(true),
    }
}

fn state_of(kind: u64, held: u64) -> State
    ensures { result ≡ state_of kind held }
{
    match kind {
        1 => State::Fresh(bit_of(held)),
        2 => State::Before(place_of(held)),
        3 => State::Parted(place_of(held)),
        4 => State::InNumber(slot_of(held)),
        5 => State::Remark,
        6 => State::AfterC,
        7 => State::AfterCn,
        8 => State::AfterMinus,
        _ => State::Dead,
    }
}

pub fn reader_of(state: &[u64; 12]) -> Reader
    ensures { ReaderOfPromise state.now result }
{
    let [
        kind,
        held,
        number,
        place,
        variables,
        count,
        universal,
        bound,
        clauses,
        literals,
        large,
        over,
    ] = *state;
    Reader {
        state: state_of(kind, held),
        number: capped(number),
        at: place,
        kept: Kept {
            variables: capped(variables),
            count: capped(count),
            universal: bit_of(universal),
            bound: capped(bound),
            clauses: capped(clauses),
            literals: capped(literals),
            large: bit_of(large),
            over: bit_of(over),
        },
    }
}
