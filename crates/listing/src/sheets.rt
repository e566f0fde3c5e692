// The openings of a page, one after the other.
ghost use Rattle.std.specs.Prelude.{◌≡◌, ◌+◌, ◌*◌, ◌≤◌, length};
ghost use Rattle.formula.specs.Formula.{formula_of};
ghost use Rattle.listing.specs.Page.{page_memory, paged, sheet_of, written};
ghost use Rattle.listing.specs.Inner.Pages.{OnPage, wiped_outcome};

use crate::openings;
use formula::MAX_VARIABLES;
use record::State;
use tables::Tables;

// What a page answers: where the next one begins, the entries written, and whether a search didn't end within the budget.
#[derive(Clone, Copy)]
pub struct Page {
    pub next: u32,
    pub entries: u32,
    pub paused: bool,
}

// Writes an entry: the opening, and how many ones its number has.
fn write_entry(output: &mut [u32], entries: u32, opening: u32)
    requires { 2 * entries + 2 ≤ length output.old }
    ensures { output.new ≡ written opening entries output.old }
{
    let at = 2 * (entries as usize);
    output[at] = opening;
    output[at + 1] = opening.count_ones();
}

// The openings from `start` on: each is searched, and written if it wins. What the searches leave in the work record is not wiped here.
pub(crate) fn fill(
    block: &[i32],
    lits: &mut [i32],
    kinds: &mut [u8],
    k: usize,
    start: u32,
    preferred: &[i32],
    budget: u32,
    output: &mut [u32],
) -> Page
    requires { OnPage block.now (page_memory lits.old kinds.old output.old) k start }
    ensures { wiped_outcome (formula_of block.now) result (page_memory lits.new kinds.new output.new) ≡ paged (formula_of block.now) (page_memory lits.old kinds.old output.old).work (sheet_of (formula_of block.now) (page_memory lits.old kinds.old output.old) start preferred.now budget) }
{
    let tables = &mut Tables::of(block);
    let reasons = &mut [0u32; MAX_VARIABLES];
    let mut page = Page {
        next: start,
        entries: 0,
        paused: false,
    };
    for n in start..openings::count(k) {
        if output.len() < 2 * (page.entries as usize) + 2 {
            return page;
        }
        let reached = openings::try_opening(tables, lits, kinds, k, n, preferred, budget, reasons);
        match reached.state {
            State::Open => {
                page.paused = true;
                return page;
            }
            State::Valid => {
                write_entry(output, page.entries, n);
                page.entries += 1;
            }
            State::Unsat => {}
        }
        page.next = n + 1;
    }
    page
}
