// The openings that win, page by page.
use crate::ask::{Mode, Request};
use crate::opening::{Opening, group};
use crate::room::{ENTRIES, OUTPUT_WORDS, PLACES};
use crate::said;
use listing::Page;
use words::Refusal;

// How far the pages have come: how many openings have won, and where the next page begins.
#[derive(Clone, Copy)]
struct Place {
    count: u64,
    next: u32,
}

// What a page is lent.
#[derive(Drop)]
struct Sheet {
    literals: [i32; PLACES],
    kinds: [u8; PLACES],
    output: [u32; OUTPUT_WORDS],
}

// The last line: what all pages together have come to, and where they have paused.
fn end(rt: &impl Print, block: &[i32], place: Place, paused: bool) {
    let Place { count, next } = place;
    if paused {
        let opening = Opening {
            group: group(block),
            number: next,
        };
        said::paused(rt, count, opening);
    } else {
        said::all(rt, count);
    }
}

impl Sheet {
    // Writes the openings of a page. An entry is the opening's number and a second word.
    fn write(&self, rt: &impl Print, block: &[i32], entries: u32) {
        let group = group(block);
        let (all, _) = self.output.as_chunks::<2>();
        for &[number, _] in all.iter().take(entries as usize) {
            said::winner(rt, Opening { group, number });
        }
    }

    // The budget of an opening's search has 32 bits; a larger one is the largest of these.
    fn fill(&mut self, block: &[i32], start: u32, budget: u64) -> Result<Page, Refusal> {
        listing::page(
            block,
            &mut self.literals,
            &mut self.kinds,
            start,
            &[0],
            u32::try_from(budget).unwrap_or(u32::MAX),
            &mut self.output,
        )
    }

    // Where there is a page behind this one, how far the pages have come: only one that is full leaves more to ask for.
    fn page(
        &mut self,
        rt: &(impl Print + Eprint),
        block: &[i32],
        from: Place,
        request: Request,
    ) -> Option<Place> {
        match self.fill(block, from.next, request.budget) {
            Ok(page) => {
                if matches!(request.mode, Mode::List) {
                    self.write(rt, block, page.entries);
                }
                let place = Place {
                    count: from.count.wrapping_add(u64::from(page.entries)),
                    next: page.next,
                };
                let more = !page.paused && ENTRIES <= page.entries as usize;
                if !more {
                    end(rt, block, place, page.paused);
                }
                said::progress(rt, u64::from(page.next), request.progress);
                if more { Some(place) } else { None }
            }
            Err(refusal) => {
                said::refused(rt, refusal);
                said::progress(rt, 0, request.progress);
                None
            }
        }
    }
}

// A proved loop has to end: this one has more turns than any run uses up.
pub(crate) fn winners(rt: &(impl Print + Eprint), block: &[i32], request: Request) {
    let mut sheet = Sheet {
        literals: [0; PLACES],
        kinds: [0; PLACES],
        output: [0; OUTPUT_WORDS],
    };
    let mut place = Place { count: 0, next: 0 };
    for _ in 0..u64::MAX {
        match sheet.page(rt, block, place, request) {
            Some(next) => place = next,
            None => return,
        }
    }
}
