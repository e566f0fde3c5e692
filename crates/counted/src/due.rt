// The due rule, by the numbers of the clauses.
ghost use Rattle.std.specs.Prelude.{◌≡◌, take};
ghost use Rattle.formula.specs.Formula.{prefix_of, formula_of};
ghost use Rattle.theory.specs.Record.{among};
ghost use Rattle.rules.specs.Due as rules;
ghost use Rattle.record.specs.Trail.{trail, record_of};
ghost use Rattle.counted.specs.Inner.State.{Counted};
ghost use Rattle.counted.specs.Inner.Standing.{clauses_of, Sought};

use crate::fixed::Fixed;
use crate::free::due_free;
use crate::numbers::lowest;
use crate::unit::lowest_unit;
use crate::walk::Bounds;
use clauses::UnitClause;
use formula::LITERAL_PLACES;
use record::Rule;

// The due rule, and the bounds as the looks leave them.
#[derive(Clone, Copy)]
pub(crate) struct Looked {
    pub(crate) rule: Rule,
    pub(crate) bounds: Bounds,
}

// Each look begins at its bound, and raises it to what it has found, or to the number of clauses.
pub(crate) fn due(
    block: &[i32],
    kinds: &[u8],
    count: usize,
    fixed: &Fixed,
    statuses: &[u8; LITERAL_PLACES],
    trues: &[u32],
    opens: &[u32],
    was: Bounds,
) -> Looked
    requires { Sought block.now kinds.now count fixed.now.levels.now fixed.now.stops.now fixed.now.index.now statuses.now trues.now opens.now was }
    ensures { (x : Sought block.now kinds.now count fixed.now.levels.now fixed.now.stops.now fixed.now.index.now statuses.now trues.now opens.now was) → (result.rule ≡ rules.due (formula_of block.now) (record_of (trail x.lits kinds.now) count)) × Counted (prefix_of block.now) (clauses_of block.now) (among (take count x.lits)) trues.now opens.now result.bounds }
{
    let ends = formula::ends(block);
    let clauses = ends.len();
    if let Some(conflict) = lowest(trues, opens, was.conflict, clauses, 0) {
        return Looked {
            rule: rules::due_conflict(kinds, count, conflict),
            bounds: Bounds { conflict, ..was },
        };
    }
    let words = formula::literals(block);
    match lowest_unit(ends, words, trues, opens, statuses, fixed.levels, was.unit) {
        Some(UnitClause { literal, clause }) => Looked {
            rule: Rule::Unit { literal, clause },
            bounds: Bounds {
                conflict: clauses,
                unit: clause,
            },
        },
        None => {
            let prefix = formula::prefix(block);
            Looked {
                rule: due_free(prefix, kinds, count, fixed, statuses, trues),
                bounds: Bounds {
                    conflict: clauses,
                    unit: clauses,
                },
            }
        }
    }
}
