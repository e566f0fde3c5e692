// The rows of the table that speak of a page, in its order.
ghost use Rattle.std.specs.Prelude.{◌≡◌, []};
ghost use Rattle.formula.specs.Limits.{limits};
ghost use Rattle.formula.specs.Check.{checked_of};
ghost use Rattle.words.specs.Rows.{refusal_of};
ghost use Rattle.record.specs.Inner.Ready.{formula};
ghost use Rattle.listing.specs.Page.{page_memory, of_page, page_refusal};

use crate::openings;
use words::Refusal;

// Rows 18 to 21, which look at the prefix and at no clause.
fn openings_refusal(prefix: &[i32], start: u32, output: &[u32]) -> Result<(), Refusal>
    ensures { result ≡ checked_of (refusal_of (of_page limits (formula prefix.now [] []) start output.now)) }
{
    if words::negative_at(prefix, 0) {
        return Err(Refusal(18));
    }
    let k = openings::first_group(prefix);
    if formula::MAX_GROUP < k {
        return Err(Refusal(19));
    }
    if openings::count(k) < start {
        return Err(Refusal(20));
    }
    if output.len() < 2 {
        return Err(Refusal(21));
    }
    Ok(())
}

// All rows of a page.
pub(crate) fn page_refusal(
    block: &[i32],
    lits: &[i32],
    kinds: &[u8],
    start: u32,
    output: &[u32],
) -> Result<(), Refusal>
    ensures { result ≡ checked_of (page_refusal limits block.now (page_memory lits.now kinds.now output.now) start) }
{
    memory::open_refusal(block, memory::record_places(lits, kinds))?;
    openings_refusal(formula::prefix(block), start, output)
}
