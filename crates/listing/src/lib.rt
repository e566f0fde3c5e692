// The listing of openings, page by page.
#![tactic(auto)]

ghost use Rattle.listing.specs.Page.{page_memory};
ghost use Rattle.listing.specs.Promises.{PagePromise};

mod guard; // which row of the table turns a page away
mod openings; // an opening: its values and its search
mod sheets; // the openings of a page, one after the other

pub use openings::first_group;
pub use sheets::Page;
use words::Refusal;

// The winning openings from `start` on, as far as the output's room and the budget for each search go.
pub fn page(
    block: &[i32],
    lits: &mut [i32],
    kinds: &mut [u8],
    start: u32,
    preferred: &[i32],
    budget: u32,
    output: &mut [u32],
) -> Result<Page, Refusal>
    ensures { PagePromise block.now (page_memory lits.old kinds.old output.old) start preferred.now budget result (page_memory lits.new kinds.new output.new) }
{
    guard::page_refusal(block, lits, kinds, start, output)?;
    let k = openings::first_group(formula::prefix(block));
    let page = sheets::fill(block, lits, kinds, k, start, preferred, budget, output);
    record::clear(lits, kinds, words::size_at(block, 0));
    Ok(page)
}
