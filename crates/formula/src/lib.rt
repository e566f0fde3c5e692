// The formula block: a checker with refusals 1 to 10 and 23.
#![tactic(auto)]

ghost use Rattle.formula.specs.Promises.{CheckPromise};

mod cut; // the block's three parts
mod each_clause; // the clauses, one after the other
mod header; // the counts and the offsets
mod parts; // the prefix, the clause ends and the literals
mod places; // the place of a literal in a table
mod marks; // which variables or literals were seen

// The parts of a block, of any words.
pub use cut::{ends, literals, prefix};
pub use each_clause::Clauses;
// Inner doors: row 12 asks the same of a record's words as rows 5 and 6 of the prefix's, and the rules have tables by literal too.
pub use marks::variable_twice;
pub use parts::some_stranger;
pub use places::{LITERAL_PLACES, MIDDLE, place, place_at};
use words::Refusal;

// The limits: every table's size goes by them. specs/Limits has the same numbers, and says that they are these.
pub const MAX_VARIABLES: usize = 1024;

pub const MAX_CLAUSES: usize = 4096;

pub const MAX_LITERALS: usize = 8192;

// Of variables in a listing's first group.
pub const MAX_GROUP: usize = 20;

// Rows 1 to 4 are about the header; with a header as it should be, the parts lie within the block.
pub fn check(block: &[i32]) -> Result<(), Refusal>
    ensures { CheckPromise block.now result }
{
    if block.len() < cut::HEADER {
        return Err(Refusal(1));
    }
    if header::bad_counts(block) {
        return Err(Refusal(2));
    }
    let ends_from = cut::HEADER + words::size_at(block, 0);
    let literals_from = ends_from + words::size_at(block, 1);
    if header::bad_offsets(block, ends_from, literals_from) {
        return Err(Refusal(3));
    }
    if block.len() != literals_from + words::size_at(block, 2) {
        return Err(Refusal(4));
    }
    parts::check_parts(prefix(block), ends(block), literals(block))
}
