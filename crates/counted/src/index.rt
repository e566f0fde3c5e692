// Which clauses hold a literal: of the literal at place p, the numbers in the index from the stop of the place before to its own, ascending.
ghost use Rattle.std.specs.Prelude.{◌≤◌, length};
ghost use Rattle.formula.specs.Limits.{limits};
ghost use Rattle.formula.specs.Formula.{clauses_from};
ghost use Rattle.clauses.specs.Inner.Clauses.{Placed};
ghost use Rattle.counted.specs.Inner.Index.{Few, Table, at, before, Indexed};

use clauses::InOrder;
use formula::{LITERAL_PLACES, place};

// How many words have each place.
fn count_literals(words: &[i32]) -> [u16; LITERAL_PLACES]
    requires placed { Placed words.now }
    requires words_len_bound { length words.now ≤ limits.literals }
    ensures { Table (λ p. at p words.now) result }
{
    let mut counts = [0u16; LITERAL_PLACES];
    for word in words {
        counts[place(*word)] += 1;
    }
    counts
}

// How many words have a place before it.
fn starts_of(words: &[i32]) -> [u16; LITERAL_PLACES]
    requires placed { Placed words.now }
    requires words_len_bound { length words.now ≤ limits.literals }
    ensures { Table (λ p. before p words.now) result }
{
    let mut starts = count_literals(words);
    let mut sum = 0;
    for start in starts.iter_mut() {
        let count = *start;
        *start = sum;
        sum += count;
    }
    starts
}

// Enters each clause at the next place of each of its literals. Each start moves on to its stop.
pub(crate) fn enter_clauses(ends: &[i32], words: &[i32], index: &mut [u32]) -> [u16; LITERAL_PLACES]
    requires few { Few ends.now words.now }
    requires words_in_bounds { length words.now ≤ length index.old }
    ensures { Indexed words.now (clauses_from words.now 0 ends.now) result index.old index.new }
{
    let mut stops = starts_of(words);
    for (c, clause) in InOrder::of(ends, words).enumerate() {
        for word in clause {
            let p = place(*word);
            let stop = stops[p];
            index[stop as usize] = c as u32;
            stops[p] = stop + 1;
        }
    }
    stops
}
