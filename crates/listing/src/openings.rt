// An opening: the first group, the values that a number gives to it, and its search.
ghost use Rattle.std.specs.Prelude.{◌≡◌, ◌^◌, ◌/◌, ◌%◌, ◌≤◌, ◌<◌, eqb, nat_abs, length};
ghost use Rattle.std.proofs.lemmas.List.Edits.{sets};
ghost use Rattle.formula.specs.Limits.{limits};
ghost use Rattle.formula.specs.Formula.{formula_of};
ghost use Rattle.record.specs.Trail.{trail};
ghost use Rattle.record.specs.Search.{search, reached};
ghost use Rattle.record.specs.declared.rule.State.TheVariants.{Open};
ghost use Rattle.listing.specs.Opening.{value_at, values_of, opening_start, opening_search};
ghost use Rattle.listing.specs.Promises.{FirstGroupPromise};
ghost use Rattle.listing.specs.Inner.Pages.{OnGroup, Writable};
ghost use Rattle.formula.specs.Limits.{max_variables};

use formula::MAX_VARIABLES;
use record::Reached;
use tables::Tables;

// The size of the first group.
pub fn first_group(prefix: &[i32]) -> usize
    ensures { FirstGroupPromise prefix.now result }
{
    let universal = words::negative_at(prefix, 0);
    prefix
        .iter()
        .take_while(|word| words::negative(**word) == universal)
        .count()
}

// How many openings a group of k variables has, 2^k.
#[tactic(auto, using(formula::specs::Laws::Limits::group_is, crate::proofs::Groups::shifted))]
pub(crate) fn count(k: usize) -> u32
    requires { k ≤ limits.group }
    ensures { result ≡ 2 ^ k }
{
    1 << k
}

// Whether a number has a 1 at a place; place 0 is the lowest bit.
#[tactic(auto, using(formula::specs::Laws::Limits::group_is))]
fn has_one(n: u32, place: usize) -> bool
    requires { place < limits.group }
    ensures { result ≡ eqb (n / 2 ^ place % 2) 1 }
{
    (n >> place) % 2 == 1
}

// The literal that the number n gives to a word's variable, whose bit is at a place: a word of the other sign is flipped.
fn value_at(word: i32, n: u32, place: usize) -> i32
    requires small { nat_abs word ≤ 2147483647 }
    requires low { place < limits.group }
    ensures { result ≡ value_at n place word }
{
    if words::negative(word) == has_one(n, place) {
        words::opposite(word)
    } else {
        word
    }
}

// Puts the values of the number n at the start of the record, in prefix order. The group's first variable is the highest bit.
fn write_values(group: &[i32], n: u32, lits: &mut [i32])
    requires { Writable group.now lits.old }
    ensures { lits.new ≡ sets lits.old 0 (values_of n group.now) }
{
    for (i, word) in group.iter().enumerate() {
        let place = group.len() - 1 - i;
        lits[i] = value_at(*word, n, place);
    }
}

// Where an opening's search starts: the first V places are 0, but for the values at the start of the record.
fn begin(block: &[i32], lits: &mut [i32], kinds: &mut [u8], k: usize, n: u32)
    requires { OnGroup block.now (trail lits.old kinds.old) k }
    ensures { search (trail lits.new kinds.new) k Open ≡ opening_start (formula_of block.now) (trail lits.old kinds.old) n }
{
    record::clear(lits, kinds, words::size_at(block, 0));
    write_values(words::take(formula::prefix(block), k), n, lits);
}

// The search of the opening n, within the budget. A page is lent no reasons: the search writes them to a table of its own, and they are not
// looked at.
pub(crate) fn try_opening(
    tables: &mut Tables,
    lits: &mut [i32],
    kinds: &mut [u8],
    k: usize,
    n: u32,
    preferred: &[i32],
    budget: u32,
    reasons: &mut [u32; MAX_VARIABLES],
) -> Reached
    requires on_group { OnGroup tables.old.block.now (trail lits.old kinds.old) k }
    requires reasons_len { length reasons.old ≡ max_variables }
    ensures search { reached result (trail lits.new kinds.new) ≡ opening_search (formula_of tables.old.block.now) preferred.now budget (trail lits.old kinds.old) n }
    ensures block { tables.new.block.now ≡ tables.old.block.now }
    ensures reasons_len_2 { length reasons.new ≡ max_variables }
{
    begin(tables.block, lits, kinds, k, n);
    let found = search::search(tables, lits, kinds, reasons, k, budget, preferred);
    found.reached
}
