// The completed prefix: free variables, the bound words, idle variables.
#![tactic(auto, using(formula::specs::Laws::Limits::variables_are, std::proofs::lemmas::Bool::Decides::nat_tests), unfolding(crate::specs::Inner::Marks::picked))]

ghost use Rattle.std.specs.Prelude.{◌≡◌, true, false, ◌++◌, ◌+◌, ◌≤◌, length, take, drop, set};
ghost use Rattle.std.proofs.lemmas.List.Edits.{sets};
ghost use Rattle.words.specs.Outcomes.{outcome};
ghost use Rattle.formula.specs.Limits.{limits};
ghost use Rattle.laid.specs.Block.{those, completed};
ghost use Rattle.laid.specs.Inner.Marks.{marked, picked};
ghost use Rattle.laid.specs.Inner.Ready.{Ready};

// A place for each variable, and one for 0.
const TABLE: usize = formula::MAX_VARIABLES + 1;

// Marks the variables that the words name; one past the table's end is left out.
fn mark(ws: &[i32], table: &mut [bool; TABLE])
    ensures { table.new ≡ marked table.old ws.now }
{
    for w in ws {
        let v = words::size(*w);
        if v < TABLE {
            table[v] = true;
        }
    }
}

// Whether a variable is not bound, and named or not as wanted.
fn picks(bound: &[bool; TABLE], named: &[bool; TABLE], wanted: bool, v: usize) -> bool
    requires { v ≤ limits.variables }
    ensures { result ≡ picked bound.now named.now wanted v }
{
    !bound[v] && named[v] == wanted
}

// Writes those of the first n variables, ascending, and answers the place after them.
fn write_those(
    output: &mut [i32],
    from: usize,
    bound: &[bool; TABLE],
    named: &[bool; TABLE],
    wanted: bool,
    n: usize,
) -> usize
    requires n_le_variables { n ≤ limits.variables }
    requires n_in_bounds { from + length (those (picked bound.now named.now wanted) 1 n) ≤ length output.old }
    ensures { outcome result output.new ≡ (let ws = those (picked bound.now named.now wanted) 1 n in outcome (from + length ws) (sets output.old from ws)) }
{
    let mut at = from;
    for v in 1..=n {
        if picks(bound, named, wanted, v) {
            output[at] = v as i32;
            at += 1;
        }
    }
    at
}

// Free variables, the lines' words, idle variables.
fn write_prefix(
    output: &mut [i32],
    v: usize,
    bound: &[bool; TABLE],
    named: &[bool; TABLE],
    lines: &[i32],
)
    requires v_le_variables { v ≤ limits.variables }
    requires v_in_bounds { 6 + length (those (picked bound.now named.now true) 1 v) + length lines.now + length (those (picked bound.now named.now false) 1 v) ≤ length output.old }
    ensures { output.new ≡ sets output.old 6 (those (picked bound.now named.now true) 1 v ++ lines.now ++ those (picked bound.now named.now false) 1 v) }
{
    let first = write_those(output, 6, bound, named, true, v);
    let last = first + lines.len();
    output[first..last].copy_from_slice(lines);
    write_those(output, last, bound, named, false, v);
}

// Completes the prefix of v variables, in whose place the bound words stand, with t literals from a place on.
pub(crate) fn complete(output: &mut [i32], v: usize, bound: usize, from: usize, t: usize)
    requires { Ready output.old v bound from t }
    ensures { output.new ≡ (let o = output.old in sets o 6 (completed v (take bound (drop 6 o)) (take t (drop from o)))) }
{
    let bound_words = &output[6..6 + bound];
    let mut is_bound = [false; TABLE];
    mark(bound_words, &mut is_bound);
    let mut is_named = [false; TABLE];
    mark(&output[from..from + t], &mut is_named);
    let mut lines = [0i32; formula::MAX_VARIABLES];
    lines[..bound].copy_from_slice(bound_words);
    write_prefix(output, v, &is_bound, &is_named, &lines[..bound]);
}
