// What a rule does to the record.
use record::State;
use words::Literal;

// One entry more, a cut at a place with the opposite put there, or nothing and the search's end.
#[derive(Clone, Copy)]
pub enum Move {
    Append { kind: u8, literal: Literal },
    Flip { at: usize },
    End(State),
}
