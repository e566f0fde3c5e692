// The clauses of ends that are in order, one after the other. A step reads them all, so they are cut without the tests that formula's `Clauses` makes
// for ends of any kind: those took a fifth of its instructions.
ghost use Rattle.std.specs.Prelude.{◌≡◌, false, length};
ghost use Rattle.std.specs.Iterator.{YieldsFirstRef, item_count};
ghost use Rattle.formula.specs.Block.{bad_ends};
ghost use Rattle.formula.specs.Formula.{clauses_from};
ghost use Rattle.formula.specs.Promises.{ClausesPromise};

// Those that are still to come.
#[derive(Clone, Copy)]
pub struct InOrder<'a> {
    pub(crate) ends: &'a [i32],
    literals: &'a [i32],
    from: usize,
    pub ghost ordered: { bad_ends (length literals.now) from ends.now ≡ false },
}

impl<'a> InOrder<'a> {
    pub fn of(ends: &'a [i32], literals: &'a [i32]) -> Self
        requires { bad_ends (length literals.now) 0 ends.now ≡ false }
        ensures { ClausesPromise ends.now literals.now (clauses_from result.literals.now result.from result.ends.now) }
    {
        InOrder {
            ends,
            literals,
            from: 0,
        }
    }
}

impl<'a> Iterator for InOrder<'a> {
    type Item = &'a [i32];

    ghost next_gives = { YieldsFirstRef (λ s. clauses_from s.literals.now s.from s.ends.now) };

    ghost remaining = { item_count (λ s. clauses_from s.literals.now s.from s.ends.now) };

    fn next(&mut self) -> Option<&'a [i32]> {
        let (last, others) = self.ends.split_first()?;
        let end = words::size(*last);
        let clause = &self.literals[self.from..end];
        self.ends = others;
        self.from = end;
        Some(clause)
    }
}
