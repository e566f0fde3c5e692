// The table of levels.
ghost use Rattle.std.specs.Prelude.{◌≡◌, ◌+◌, ◌<◌, pos, length, get_or, drop};
ghost use Rattle.formula.specs.Formula.{change};
ghost use Rattle.formula.specs.Limits.{limits};
ghost use Rattle.formula.specs.Block.{refusal};
ghost use Rattle.record.specs.Inner.Ready.{Bound};
ghost use Rattle.tables.specs.Promises.{LevelsPromise};
ghost use Rattle.tables.specs.Inner.Levels.{Levels};

use record::PLACES;

// More than any level: with n variables there are at most n levels.
pub const NO_LEVEL: u16 = (formula::MAX_VARIABLES + 1) as u16;

// 1 if the quantifier changes from the word at i to the next.
fn change_at(prefix: &[i32], i: usize) -> u16
    requires { i < length prefix.now }
    ensures { result ≡ change (get_or prefix.now i (pos 0)) (drop (i + 1) prefix.now) }
{
    match prefix.get(i + 1) {
        Some(next) => u16::from(words::negative(prefix[i]) != words::negative(*next)),
        None => 0,
    }
}

// The level of each variable of the prefix, and 0 at the other places.
fn levels_of(prefix: &[i32]) -> [u16; PLACES]
    requires { Bound prefix.now }
    ensures { Levels prefix.now result }
{
    let mut levels = [0u16; PLACES];
    let mut level: u16 = 0;
    for (i, word) in prefix.iter().enumerate() {
        levels[words::size(*word)] = level;
        level += change_at(prefix, i);
    }
    levels
}

// The table of levels that a search is lent: they are the block's, whatever the record.
pub fn levels(block: &[i32]) -> [u16; PLACES]
    requires { refusal limits block.now ≡ 0 }
    ensures { LevelsPromise block.now result }
{
    levels_of(formula::prefix(block))
}
