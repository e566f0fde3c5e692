// The reasons: what a rule leaves in them, what it answers, and which of them are wrong.
ghost use Rattle.std.specs.Prelude.{◌≡◌, ◌+◌, ◌<◌, length};
ghost use Rattle.memory.specs.Reasons.{bad_reason};
ghost use Rattle.memory.specs.Promises.{BadReasonsPromise, WipePromise, TellPromise};
ghost use Rattle.memory.specs.Inner.Reasons.{Tellable, Beside};

use record::Rule;

// Whether a reason is over the number of clauses, or stands beside a kind that is not 0.
fn bad_reason(clauses: usize, kind: u8, reason: u32) -> bool
    ensures { result ≡ bad_reason clauses kind reason }
{
    clauses < reason as usize || (kind != 0 && reason != 0)
}

// Row 12: whether a reason of the record is wrong.
pub fn bad_reasons(block: &[i32], kinds: &[u8], reasons: &[u32], count: usize) -> bool
    requires { Beside count kinds.now reasons.now }
    ensures { BadReasonsPromise block.now kinds.now reasons.now count result }
{
    let clauses = words::size_at(block, 1);
    kinds[..count]
        .iter()
        .zip(&reasons[..count])
        .any(|(kind, reason)| bad_reason(clauses, *kind, *reason))
}

// Sets the places from .. to to 0, as far as there are such places.
pub fn wipe(reasons: &mut [u32], from: usize, to: usize)
    ensures { WipePromise reasons.old from to reasons.new }
{
    record::wipe_places(reasons, from, to, 0)
}

// A clause's number as a reason: clauses count from 0, and 0 says that there is none.
fn named(clause: usize) -> u32
    requires { clause < 4294967295 }
    ensures { result ≡ clause + 1 }
{
    clause as u32 + 1
}

// Puts what a rule leaves beside a record of `count` entries, and answers the rule's reason.
pub fn tell(reasons: &mut [u32], rule: Rule, count: usize) -> u32
    requires { Tellable (length reasons.old) count rule }
    ensures { TellPromise reasons.old rule count result reasons.new }
{
    match rule {
        Rule::BacktrackExists { at, clause } => {
            wipe(reasons, at, count);
            named(clause)
        }
        Rule::Fail { clause } => named(clause),
        Rule::Unit { clause, .. } => {
            reasons[count] = named(clause);
            reasons[count]
        }
        Rule::Monotone { .. } | Rule::Decide { .. } => {
            reasons[count] = 0;
            0
        }
        Rule::BacktrackForall { at } => {
            wipe(reasons, at, count);
            0
        }
        Rule::Succeed => 0,
    }
}
