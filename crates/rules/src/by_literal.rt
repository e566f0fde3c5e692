// Tables by literal: one is read at a variable's two places, one is wiped there.
ghost use Rattle.std.specs.Prelude.{◌≡◌, ◌≤◌};
ghost use Rattle.formula.specs.Limits.{limits};
ghost use Rattle.tables.specs.Inner.ByLiteral.{Blank, BlankBeyond};
ghost use Rattle.rules.specs.Inner.Variables.{signs_in};

pub(crate) use formula::LITERAL_PLACES;
use formula::MIDDLE;

// The signs with which a variable occurs.
#[derive(Clone, Copy)]
pub(crate) enum Signs {
    Neither,
    Positive,
    Negative,
    Both,
}

#[tactic(auto, using(formula::specs::Laws::Limits::variables_are))]
pub(crate) fn signs_at(occurs: &[u8; LITERAL_PLACES], v: usize) -> Signs
    requires { v ≤ limits.variables }
    ensures { result ≡ signs_in occurs.now v }
{
    match (occurs[MIDDLE + v], occurs[MIDDLE - v]) {
        (0, 0) => Signs::Neither,
        (_, 0) => Signs::Positive,
        (0, _) => Signs::Negative,
        _ => Signs::Both,
    }
}

// Wipes what was written of the variables 1 to n: clearing the whole table would cost a small formula as much as a large one.
#[tactic(auto, using(formula::specs::Laws::Limits::variables_are))]
pub(crate) fn wipe(n: usize, statuses: &mut [u8; LITERAL_PLACES])
    requires n_le_variables { n ≤ limits.variables }
    requires blank_beyond { BlankBeyond n statuses.old }
    ensures { Blank statuses.new }
{
    record::wipe_places(statuses, MIDDLE - n, MIDDLE + n + 1, 0)
}
