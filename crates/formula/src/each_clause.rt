// The clauses, one after the other: each has the literal words from the end before it to its own.
ghost use Rattle.std.specs.Prelude.{◌≡◌};
ghost use Rattle.std.specs.Iterator.{YieldsFirstRef, item_count};
ghost use Rattle.formula.specs.Formula.{clauses_from};
ghost use Rattle.formula.specs.Promises.{ClausesPromise};

// Those that are still to come.
#[derive(Clone, Copy)]
pub struct Clauses<'a> {
    ends: &'a [i32],
    literals: &'a [i32],
    from: usize,
}

impl<'a> Clauses<'a> {
    // The clauses of any ends and any literal words.
    pub fn of(ends: &'a [i32], literals: &'a [i32]) -> Self
        ensures { ClausesPromise ends.now literals.now (clauses_from result.literals.now result.from result.ends.now) }
    {
        Clauses {
            ends,
            literals,
            from: 0,
        }
    }
}

impl<'a> Iterator for Clauses<'a> {
    type Item = &'a [i32];

    ghost next_gives = { YieldsFirstRef (λ s. clauses_from s.literals.now s.from s.ends.now) };

    ghost remaining = { item_count (λ s. clauses_from s.literals.now s.from s.ends.now) };

    fn next(&mut self) -> Option<&'a [i32]> {
        let (last, others) = self.ends.split_first()?;
        let end = words::size(*last);
        let length = end.saturating_sub(self.from);
        let clause = words::take(words::drop(self.literals, self.from), length);
        self.ends = others;
        self.from = end;
        Some(clause)
    }
}
