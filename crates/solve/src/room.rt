// How large the buffers are: as large as any accepted block asks for.
use formula::{MAX_CLAUSES, MAX_LITERALS, MAX_VARIABLES};

// [block.length] The header has six words.
pub(crate) const BLOCK_WORDS: usize = 6 + MAX_VARIABLES + MAX_CLAUSES + MAX_LITERALS;

pub(crate) const PLACES: usize = MAX_VARIABLES;

pub(crate) const CLAUSES: usize = MAX_CLAUSES;

pub(crate) const INDEX_WORDS: usize = MAX_VARIABLES + MAX_LITERALS;

// The text comes in pieces of at most so many bytes.
pub(crate) const PIECE_BYTES: usize = 65536;

// A page has room for 4,096 entries of two words.
pub(crate) const ENTRIES: usize = 4096;

pub(crate) const OUTPUT_WORDS: usize = 2 * ENTRIES;
