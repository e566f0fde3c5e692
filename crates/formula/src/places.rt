// The place of a literal in a table by literal, which the word itself gives.
ghost use Rattle.std.specs.Prelude.{◌≤◌, pos, nat_abs, get_or};
ghost use Rattle.formula.specs.Promises.{PlaceAtPromise};
ghost use Rattle.formula.specs.Limits.{limits};

// The place of the word 0, which is no literal. Variable v has its place v above it, and the opposite of v has it v below.
pub const MIDDLE: usize = crate::MAX_VARIABLES;

// The same number, for a signed word.
const RAISE: i64 = crate::MAX_VARIABLES as i64;

pub const LITERAL_PLACES: usize = 2 * crate::MAX_VARIABLES + 1;

// The place of a literal, and of the one at an index. Past the end there is the word 0.
pub fn place(word: i32) -> usize
    requires { nat_abs word ≤ limits.variables }
    ensures { PlaceAtPromise word result }
{
    (word as i64 + RAISE) as usize
}

#[tactic(auto, unfolding(crate::specs::Inner::Places::place_of, crate::specs::Limits::limits))]
pub fn place_at(ws: &[i32], i: usize) -> usize
    requires { nat_abs (get_or ws.now i (pos 0)) ≤ limits.variables }
    ensures { PlaceAtPromise (get_or ws.now i (pos 0)) result }
{
    ws.get(i).map_or(MIDDLE, |word| place(*word))
}
