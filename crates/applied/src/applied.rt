// One rule applied to the lent buffers.
ghost use Rattle.std.specs.Prelude.{◌≡◌};
ghost use Rattle.formula.specs.Limits.{limits};
ghost use Rattle.formula.specs.Formula.{prefix_of};
ghost use Rattle.record.specs.Trail.{trail};
ghost use Rattle.record.specs.Found.{literal};
ghost use Rattle.applied.specs.Apply.{kind_of, move_of};
ghost use Rattle.applied.specs.Promises.{ApplyPromise};
ghost use Rattle.record.specs.Inner.Ready.{Bound, OnBlock};
ghost use Rattle.applied.specs.Inner.Fits.{Fitting};
ghost use Rattle.applied.specs.Apply as spec;

use crate::buffers::{append, flip};
use crate::moves::Move;
use record::{Reached, Rule, State};
use words::Literal;

// The proposed literal, or for proposal 0 the first unassigned variable, true.
fn chosen(proposal: Literal, first: Literal) -> Literal
    ensures { result ≡ literal (spec.chosen proposal.0 first.0) }
{
    if proposal.0 == 0 { first } else { proposal }
}

// The kind of a decision on a literal: 2 if its variable is universal, else 1. A number, as the lent buffer of kinds holds it.
fn kind_of(prefix: &[i32], literal: Literal) -> u8
    requires { Bound prefix.now }
    ensures { result ≡ kind_of prefix.now literal.0 }
{
    let quantifiers = record::values_of(prefix, prefix.len());
    let quantifier = quantifiers.get(words::size(literal.0));
    if quantifier == Some(&2) { 2 } else { 1 }
}

// What a rule does to the record, with the proposal that Decide is to take.
fn move_of(prefix: &[i32], rule: Rule, proposal: Literal) -> Move
    requires { Bound prefix.now }
    ensures { result ≡ move_of prefix.now rule proposal.0 }
{
    match rule {
        Rule::BacktrackExists { at, .. } | Rule::BacktrackForall { at } => Move::Flip { at },
        Rule::Unit { literal, .. } | Rule::Monotone { literal } => Move::Append {
            kind: 0,
            literal,
        },
        Rule::Decide { first } => {
            let literal = chosen(proposal, first);
            let kind = kind_of(prefix, literal);
            Move::Append { kind, literal }
        }
        Rule::Fail { .. } => Move::End(State::Unsat),
        Rule::Succeed => Move::End(State::Valid),
    }
}

// One rule, with the proposal that Decide is to take.
pub fn apply(
    block: &[i32],
    lits: &mut [i32],
    kinds: &mut [u8],
    count: usize,
    rule: Rule,
    proposal: Literal,
) -> Reached
    requires on_block { OnBlock limits block.now (trail lits.old kinds.old) count }
    requires fitting { Fitting (prefix_of block.now) count rule }
    ensures { ApplyPromise block.now (trail lits.old kinds.old) count rule proposal result (trail lits.new kinds.new) }
{
    match move_of(formula::prefix(block), rule, proposal) {
        Move::Append { kind, literal } => append(lits, kinds, count, kind, literal),
        Move::Flip { at } => flip(lits, kinds, count, at),
        Move::End(state) => Reached { count, state },
    }
}
