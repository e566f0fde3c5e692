// Whether a literal is in a clause with no true literal.
ghost use Rattle.std.specs.Prelude.{◌≡◌};
ghost use Rattle.counted.specs.Inner.Live.{some_zero, Within};

// Whether one of the list's clauses has no true literal.
pub(crate) fn is_live(list: &[u32], trues: &[u32]) -> bool
    requires { Within list.now trues.now }
    ensures { result ≡ some_zero trues.now list.now }
{
    list.iter().any(|c| trues[*c as usize] == 0)
}
