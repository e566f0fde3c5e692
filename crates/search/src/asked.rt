// What a search asks of its state and of a rule.
ghost use Rattle.search.specs.Promises.{IsOverPromise, IsDecidePromise};

use record::{Rule, State};

// Whether a search has ended.
pub fn is_over(state: State) -> bool
    ensures { IsOverPromise state result }
{
    !matches!(state, State::Open)
}

// Whether a rule takes a proposal.
pub fn is_decide(rule: Rule) -> bool
    ensures { IsDecidePromise rule result }
{
    matches!(rule, Rule::Decide { .. })
}
