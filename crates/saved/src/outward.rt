// A reader's numbers.
ghost use Rattle.std.specs.Prelude.{◌≡◌};
ghost use Rattle.saved.specs.Numbers.{place_number, slot_number, kind_number, held_number};
ghost use Rattle.saved.specs.Promises.{WriteReaderPromise};

use grammar::{Place, Slot, State};
use reader::Reader;

fn place_number(place: Place) -> u64
    ensures { result ≡ place_number place }
{
    match place {
        Place::AtHead => 0,
        Place::AtCnf => 1,
        Place::AtFirst => 2,
        Place::AtSecond => 3,
        Place::AtLine(false) => 4,
        Place::AtLine(true) => 5,
        Place::AtNumber => 6,
        Place::AtNumbers => 7,
        Place::AtLiterals => 8,
        Place::AtEnd(false) => 9,
        Place::AtEnd(true) => 10,
    }
}

fn slot_number(slot: Slot) -> u64
    ensures { result ≡ slot_number slot }
{
    match slot {
        Slot::OfVariables => 0,
        Slot::OfCount => 1,
        Slot::OfGroup => 2,
        Slot::OfClause(false) => 3,
        Slot::OfClause(true) => 4,
    }
}

// Its kind, and what it holds.
fn state_numbers(state: State) -> (u64, u64)
    ensures kind { result.0 ≡ kind_number state }
    ensures held { result.1 ≡ held_number state }
{
    match state {
        State::Dead => (0, 0),
        State::Fresh(more) => (1, u64::from(more)),
        State::Before(place) => (2, place_number(place)),
        State::Parted(place) => (3, place_number(place)),
        State::InNumber(slot) => (4, slot_number(slot)),
        State::Remark => (5, 0),
        State::AfterC => (6, 0),
        State::AfterCn => (7, 0),
        State::AfterMinus => (8, 0),
    }
}

pub fn write_reader(reader: Reader, state: &mut [u64; 12])
    ensures { WriteReaderPromise reader state.old state.new }
{
    let kept = reader.kept;
    let (kind, held) = state_numbers(reader.state);
    *state = [
        kind,
        held,
        u64::from(reader.number),
        reader.at,
        u64::from(kept.variables),
        u64::from(kept.count),
        u64::from(kept.universal),
        u64::from(kept.bound),
        u64::from(kept.clauses),
        u64::from(kept.literals),
        u64::from(kept.large),
        u64::from(kept.over),
    ];
}
