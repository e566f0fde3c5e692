// The open literals: of an unassigned variable, with none unassigned of a lower level.
ghost use Rattle.std.specs.Prelude.{◌≡◌, ◌≤◌, pos};
ghost use Rattle.formula.specs.Limits.{limits};
ghost use Rattle.formula.specs.Formula.{prefix_of};
ghost use Rattle.tables.specs.Inner.Levels.{Levels};
ghost use Rattle.choice.specs.Promises.{IsOpenPromise, FirstOpenPromise};
ghost use Rattle.record.specs.Inner.Ready.{Bound, HeldOn};
ghost use Rattle.choice.specs.Inner.Variables.{lowest_in, open_in, preferred_in};
ghost use Rattle.record.specs.Found.{literal, on_found};
ghost use Rattle.choice.specs.First.{first_of};

use crate::variables::first_unassigned;
use record::PLACES;
use tables::NO_LEVEL;
use words::Literal;

// The lowest level of an unassigned variable, which is that of the first; NO_LEVEL if there is none.
fn lowest_level(prefix: &[i32], values: &[u8; PLACES], levels: &[u16; PLACES]) -> u16
    requires { Bound prefix.now }
    ensures { result ≡ lowest_in values.now levels.now prefix.now }
{
    match first_unassigned(prefix, values) {
        Some(first) => levels[words::size(first.0)],
        None => NO_LEVEL,
    }
}

// Whether a variable is of the prefix, of n words, unassigned, and of no higher level than the lowest.
#[tactic(auto, using(formula::specs::Laws::Limits::variables_are, std::proofs::lemmas::Bool::Decides::nat_tests), unfolding(crate::specs::Inner::Variables::open_in))]
fn open_variable(
    v: usize,
    n: usize,
    values: &[u8; PLACES],
    levels: &[u16; PLACES],
    lowest: u16,
) -> bool
    requires { n ≤ limits.variables }
    ensures { result ≡ open_in n values.now levels.now lowest v }
{
    v != 0 && v <= n && values[v] == 0 && levels[v] <= lowest
}

// Whether a literal is open over the first entries of a record.
pub fn is_open(
    block: &[i32],
    lits: &[i32],
    count: usize,
    literal: Literal,
    levels: &[u16; PLACES],
) -> bool
    requires held_on { HeldOn block.now lits.now count }
    requires levels { Levels (prefix_of block.now) levels.now }
    ensures { IsOpenPromise block.now lits.now count literal result }
{
    let prefix = formula::prefix(block);
    let values = record::values_of(lits, count);
    let lowest = lowest_level(prefix, &values, levels);
    let v = words::size(literal.0);
    open_variable(v, prefix.len(), &values, levels, lowest)
}

// The first open literal of a list, 0 if it has none: n variables, and the lowest level of an unassigned one.
fn first_in(
    list: &[i32],
    n: usize,
    values: &[u8; PLACES],
    levels: &[u16; PLACES],
    lowest: u16,
) -> Literal
    requires { n ≤ limits.variables }
    ensures { result ≡ literal (on_found (first_of (preferred_in n values.now levels.now lowest) list.now) (λ l. l.0) (pos 0)) }
{
    list.iter()
        .find(|word| open_variable(words::size(**word), n, values, levels, lowest))
        .map_or(Literal(0), |word| Literal(*word))
}

// The first open literal of a list of any content, 0 if it has none.
pub fn first_open(
    block: &[i32],
    lits: &[i32],
    count: usize,
    list: &[i32],
    levels: &[u16; PLACES],
) -> Literal
    requires held_on { HeldOn block.now lits.now count }
    requires levels { Levels (prefix_of block.now) levels.now }
    ensures { FirstOpenPromise block.now lits.now count list.now result }
{
    let prefix = formula::prefix(block);
    let values = record::values_of(lits, count);
    let lowest = lowest_level(prefix, &values, levels);
    first_in(list, prefix.len(), &values, levels, lowest)
}
