// A search: rule after rule on checked input.
ghost use Rattle.std.specs.Prelude.{◌≡◌, take};
ghost use Rattle.formula.specs.Formula.{prefix_of, formula_of};
ghost use Rattle.theory.specs.Record.{among};
ghost use Rattle.record.specs.Found.{literal};
ghost use Rattle.rules.specs.Due.{due};
ghost use Rattle.record.specs.Trail.{trail, record_of};
ghost use Rattle.record.specs.Search as spec;
ghost use Rattle.choice.specs.Preferred.{proposal_of};
ghost use Rattle.words.specs.Outcomes.{outcome};
ghost use Rattle.record.specs.Inner.Ready.{HeldOn};
ghost use Rattle.record.specs.declared.rule.State.TheVariants.{Open};
ghost use Rattle.memory.specs.Memory.{memory};
ghost use Rattle.memory.specs.Reasons.{why, told};
ghost use Rattle.search.specs.Run.{advance};
ghost use Rattle.memory.specs.Inner.Reasons.{OnMemory};
ghost use Rattle.search.specs.Promises.{SearchPromise};

use crate::asked;
use record::{Reached, Rule, State};
use tables::Tables;
use words::Literal;

// Where a number of steps lead, how many they are, and the reason of the last one, 0 if there is none.
#[derive(Clone, Copy)]
pub struct Searched {
    pub reached: Reached,
    pub steps: u32,
    pub reason: u32,
}

// Where one step leads, and its reason.
#[derive(Clone, Copy)]
pub(crate) struct Advanced {
    reached: Reached,
    reason: u32,
}

// What is proposed to a rule: at Decide the first open preferred literal, else 0.
fn proposal(tables: &Tables, lits: &[i32], count: usize, rule: Rule, preferred: &[i32]) -> Literal
    requires { HeldOn tables.now.block.now lits.now count }
    ensures { result ≡ literal (proposal_of (prefix_of tables.now.block.now) (among (take count lits.now)) preferred.now rule) }
{
    if asked::is_decide(rule) {
        choice::first_open(tables.block, lits, count, preferred, &tables.levels)
    } else {
        Literal(0)
    }
}

// One accepted step.
fn advance(
    tables: &mut Tables,
    lits: &mut [i32],
    kinds: &mut [u8],
    reasons: &mut [u32],
    count: usize,
    preferred: &[i32],
) -> Advanced
    requires { OnMemory tables.old.block.now (memory lits.old kinds.old reasons.old) count }
    ensures search { outcome (spec.reached result.reached (trail lits.new kinds.new)) tables.new.statuses ≡ outcome (advance (formula_of tables.old.block.now) preferred.now (spec.search (trail lits.old kinds.old) count Open)) tables.old.statuses }
    ensures reasons { why reasons.new result.reason ≡ told (due (formula_of tables.old.block.now) (record_of (trail lits.old kinds.old) count)) count reasons.old }
    ensures block { tables.new.block.now ≡ tables.old.block.now }
    ensures levels { tables.new.levels ≡ tables.old.levels }
{
    let rule = rules::due(tables, lits, kinds, count);
    let literal = proposal(tables, lits, count, rule, preferred);
    let reason = memory::tell(reasons, rule, count);
    let reached = applied::apply(tables.block, lits, kinds, count, rule, literal);
    Advanced { reached, reason }
}

// At most `budget` steps from an open search of the tables' block. A page asks it for each opening.
pub fn search(
    tables: &mut Tables,
    lits: &mut [i32],
    kinds: &mut [u8],
    reasons: &mut [u32],
    count: usize,
    budget: u32,
    preferred: &[i32],
) -> Searched
    requires { OnMemory tables.old.block.now (memory lits.old kinds.old reasons.old) count }
    ensures search { SearchPromise tables.old.block.now (memory lits.old kinds.old reasons.old) count budget preferred.now tables.old.statuses result (memory lits.new kinds.new reasons.new) tables.new.statuses }
    ensures block { tables.new.block.now ≡ tables.old.block.now }
    ensures levels { tables.new.levels ≡ tables.old.levels }
{
    let mut reached = Reached {
        count,
        state: State::Open,
    };
    let mut reason = 0;
    for steps in 0..budget {
        if asked::is_over(reached.state) {
            return Searched {
                reached,
                steps,
                reason,
            };
        }
        let next = advance(tables, lits, kinds, reasons, reached.count, preferred);
        reached = next.reached;
        reason = next.reason;
    }
    Searched {
        reached,
        steps: budget,
        reason,
    }
}
