// What is kept of a text: what each event does to the counts and to the output.
#![tactic(auto, using(std::proofs::lemmas::Bool::Decides::nat_tests), unfolding(crate::specs::Keep::keep, crate::specs::Keep::keeps))]

ghost use Rattle.std.specs.Prelude.{◌≡◌, [], pos, set};
ghost use Rattle.words.specs.Outcomes.{outcome};
ghost use Rattle.formula.specs.Block.{no_variable};
ghost use Rattle.grammar.specs.Machine.{announces, counts, binds, holds, ends, signed, numbered, events};
ghost use Rattle.reader.specs.Keep.{keep as after, keeps};

use crate::Kept;
use crate::numbers::{capped, is_beyond, stored_word};
use grammar::{Says, Slot};

// A word at its place, if the output goes so far. The writer has the same of bytes: one function for both would be a door between crates for two lines.
fn put(output: &mut [i32], at: usize, word: i32)
    ensures { output.new ≡ set output.old at word }
{
    if at < output.len() {
        output[at] = word;
    }
}

// Whether a number names none of v variables.
fn is_strange(v: u32, n: u32) -> bool
    ensures { result ≡ no_variable v (pos n) }
{
    n == 0 || v < n
}

impl Kept {
    // The problem line's two numbers. They differ in the field that they fill, which no parameter can name.
    fn announce(self, n: u32) -> Kept
        ensures { result ≡ (after self [] (announces n)).answer }
    {
        let variables = capped(u64::from(n));
        Kept {
            variables,
            large: self.large || is_beyond(false, variables),
            ..self
        }
    }

    fn count(self, n: u32) -> Kept
        ensures { result ≡ (after self [] (counts n)).answer }
    {
        let count = capped(u64::from(n));
        Kept {
            count,
            large: self.large || is_beyond(false, count),
            ..self
        }
    }

    // A bound number.
    fn bind(self, n: u32, output: &mut [i32]) -> Kept
        ensures { outcome result output.new ≡ after self output.old (binds n) }
    {
        let number = capped(u64::from(n));
        let beyond = is_beyond(false, number);
        put(
            output,
            6 + self.bound as usize,
            stored_word(beyond, self.universal, number),
        );
        Kept {
            bound: capped(u64::from(self.bound) + 1),
            large: self.large || beyond,
            over: self.over || is_strange(self.variables, number),
            ..self
        }
    }

    // A literal.
    fn hold(self, negative: bool, n: u32, output: &mut [i32]) -> Kept
        ensures { outcome result output.new ≡ after self output.old (holds (signed negative n)) }
    {
        let beyond = is_beyond(negative, n);
        let at = 6 + self.variables as usize + self.count as usize + self.literals as usize;
        put(output, at, stored_word(beyond, negative, n));
        Kept {
            literals: capped(u64::from(self.literals) + 1),
            large: self.large || beyond,
            ..self
        }
    }

    // A clause's end.
    fn close(self, output: &mut [i32]) -> Kept
        ensures { outcome result output.new ≡ after self output.old ends }
    {
        let beyond = is_beyond(false, self.literals);
        let at = 6 + self.variables as usize + self.clauses as usize;
        put(output, at, stored_word(beyond, false, self.literals));
        Kept {
            clauses: capped(u64::from(self.clauses) + 1),
            ..self
        }
    }

    // A number of the text.
    fn number(self, slot: Slot, n: u32, output: &mut [i32]) -> Kept
        ensures { outcome result output.new ≡ after self output.old (numbered slot n) }
    {
        match slot {
            Slot::OfVariables => self.announce(n),
            Slot::OfCount => self.count(n),
            Slot::OfGroup => self.bind(n, output),
            Slot::OfClause(negative) => self.hold(negative, n, output),
        }
    }

    // What a byte says, n being the number before it.
    pub(crate) fn keep(self, says: Says, n: u32, output: &mut [i32]) -> Kept
        ensures { outcome result output.new ≡ keeps self output.old (events says n) }
    {
        match says {
            Says::Nothing => self,
            Says::Zero(slot) => self.number(slot, 0, output),
            Says::Value(slot) => self.number(slot, n, output),
            Says::Forall => Kept {
                universal: true,
                ..self
            },
            Says::Exists => Kept {
                universal: false,
                ..self
            },
            Says::Ends => self.close(output),
        }
    }
}
