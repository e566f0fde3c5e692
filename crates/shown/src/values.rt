// The values of the first group: as the record has them, and else against a clause.
ghost use Rattle.std.specs.Prelude.{◌≡◌, ◌≤◌, pos, nat_abs, get_or};
ghost use Rattle.std.proofs.lemmas.List.Edits.{sets};
ghost use Rattle.formula.specs.Limits.{limits};
ghost use Rattle.words.specs.Words.{eq_z, mem};
ghost use Rattle.theory.specs.Record.{Assignment};
ghost use Rattle.theory.specs.Witness.{shown_true, signed_as, signed};
ghost use Rattle.record.specs.Inner.Tables.{Values};
ghost use Rattle.shown.specs.Inner.Writing.{Writable};

use record::PLACES;

// Whether the variable v is shown as true.
fn is_true(v: usize, values: &[u8; PLACES], clause: &[i32]) -> bool
    requires { v ≤ limits.variables }
    ensures { (ρ : Assignment) → Values ρ values.now → result ≡ shown_true ρ clause.now (pos v) }
{
    match values[v] {
        0 => !clause.contains(&(v as i32)),
        value => value == 1,
    }
}

// The value of a word's variable, as a literal.
fn value_of(word: i32, values: &[u8; PLACES], clause: &[i32]) -> i32
    requires { nat_abs word ≤ limits.variables }
    ensures { (ρ : Assignment) → Values ρ values.now → result ≡ signed_as (shown_true ρ clause.now) word }
{
    let v = words::size(word);
    let literal = v as i32;
    if is_true(v, values, clause) {
        literal
    } else {
        -literal
    }
}

// All of them, in prefix order, in the output's first places.
pub(crate) fn write(group: &[i32], values: &[u8; PLACES], clause: &[i32], output: &mut [i32])
    requires { Writable group.now output.old }
    ensures { (ρ : Assignment) → Values ρ values.now → output.new ≡ sets output.old 0 (signed (shown_true ρ clause.now) group.now) }
{
    for (i, word) in group.iter().enumerate() {
        output[i] = value_of(*word, values, clause);
    }
}
