// One rule applied to the record. What Decide takes, and its kind, are read from the tables: the prefix is not gone through.
ghost use Rattle.std.specs.Prelude.{◌≡◌, ◌≤◌, take};
ghost use Rattle.formula.specs.Limits.{limits};
ghost use Rattle.formula.specs.Formula.{prefix_of};
ghost use Rattle.theory.specs.Record.{among};
ghost use Rattle.record.specs.Trail.{trail};
ghost use Rattle.record.specs.Search as rules;
ghost use Rattle.applied.specs.Apply.{apply};
ghost use Rattle.choice.specs.Preferred.{proposal_of};
ghost use Rattle.record.specs.declared.rule.State.TheVariants.{Open};
ghost use Rattle.counted.specs.Inner.Decided.{open_at, preferred_at, Enacting};

use crate::fixed::Fixed;
use formula::{LITERAL_PLACES, MIDDLE};
use record::{PLACES, Reached, Rule};
use words::Literal;

// Whether a variable is one of n, unassigned, and of no higher level than the lowest.
fn is_open(
    v: usize,
    n: usize,
    statuses: &[u8; LITERAL_PLACES],
    levels: &[u16; PLACES],
    lowest: u16,
) -> bool
    requires { n ≤ limits.variables }
    ensures { result ≡ open_at n statuses.now levels.now lowest v }
{
    v != 0 && v <= n && 2 <= statuses[MIDDLE + v] && levels[v] <= lowest
}

// The first open literal of a list, else the one given.
fn preferred_of(
    list: &[i32],
    first: Literal,
    n: usize,
    statuses: &[u8; LITERAL_PLACES],
    levels: &[u16; PLACES],
    lowest: u16,
) -> Literal
    requires { n ≤ limits.variables }
    ensures { result ≡ preferred_at n statuses.now levels.now lowest list.now first }
{
    let mut words = list.iter();
    match words.find(|word| is_open(words::size(**word), n, statuses, levels, lowest)) {
        Some(word) => Literal(*word),
        None => first,
    }
}

// The due rule, with the first open preferred literal as Decide's proposal. A quantifier is told by the kind of a decision on its variable.
pub(crate) fn enact(
    block: &[i32],
    lits: &mut [i32],
    kinds: &mut [u8],
    count: usize,
    rule: Rule,
    preferred: &[i32],
    fixed: &Fixed,
    statuses: &[u8; LITERAL_PLACES],
) -> Reached
    requires { Enacting block.now (trail lits.old kinds.old) count rule fixed.now.levels.now fixed.now.quantifiers.now statuses.now }
    ensures { rules.reached result (trail lits.new kinds.new) ≡ apply (prefix_of block.now) rule (proposal_of (prefix_of block.now) (among (take count lits.old)) preferred.now rule) (rules.search (trail lits.old kinds.old) count Open) }
{
    let Rule::Decide { first } = rule else {
        return applied::apply(block, lits, kinds, count, rule, Literal(0));
    };
    let n = words::size_at(block, 0);
    let lowest = fixed.levels[words::size(first.0)];
    let literal = preferred_of(preferred, first, n, statuses, fixed.levels, lowest);
    let kind = fixed.quantifiers[words::size(literal.0)];
    applied::append(lits, kinds, count, kind, literal)
}
