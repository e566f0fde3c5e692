// What a search is lent beside the record.
ghost use Rattle.std.specs.Prelude.{◌≡◌};
ghost use Rattle.formula.specs.Limits.{limits};
ghost use Rattle.formula.specs.Formula.{prefix_of};
ghost use Rattle.formula.specs.Block.{refusal};
ghost use Rattle.tables.specs.Inner.Levels.{Levels};
ghost use Rattle.tables.specs.Inner.ByLiteral.{Blank};

use crate::by_variable::levels;
use formula::LITERAL_PLACES;
use record::PLACES;

// An accepted block with the levels of its variables, and a table of statuses that is blank between two rules.
#[derive(Drop)]
pub struct Tables<'a> {
    pub block: &'a [i32],
    pub levels: [u16; PLACES],
    pub statuses: [u8; LITERAL_PLACES],
    pub ghost accepted: { refusal limits block.now ≡ 0 },
    pub ghost told: { Levels (prefix_of block.now) levels },
    pub ghost blank: { Blank statuses },
}

impl<'a> Tables<'a> {
    ghost use Rattle.tables.specs.Promises.{TablesPromise};

    // Those of a block, whatever the record.
    pub fn of(block: &'a [i32]) -> Self
        requires { refusal limits block.now ≡ 0 }
        ensures { TablesPromise block.now result }
    {
        Tables {
            block,
            levels: levels(block),
            statuses: [0; LITERAL_PLACES],
        }
    }
}
