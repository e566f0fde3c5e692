// The console's room.

// "Room: 16,384 block words, 2,048 places of record, 8,192 of output, lines of 262,144 bytes."
pub(crate) const BLOCK_WORDS: usize = 16384;

pub(crate) const RECORD_PLACES: usize = 2048;

pub(crate) const OUTPUT_WORDS: usize = BLOCK_WORDS / 2;

// "A counted run's numbers have room for 8,192 words each, and its index for 16,384."
pub(crate) const NUMBER_WORDS: usize = OUTPUT_WORDS;

pub(crate) const INDEX_WORDS: usize = BLOCK_WORDS;

pub(crate) const LINE_BYTES: usize = 262144;

// A line has at most half as many words as bytes, which is room enough for preferences.
pub(crate) const PREFERRED_WORDS: usize = LINE_BYTES / 2;

// "A text has room for 65,536 bytes."
pub(crate) const TEXT_BYTES: usize = 65536;

// As many lengths of pieces as a line can have: none is turned away.
pub(crate) const PIECES_MOST: usize = PREFERRED_WORDS;

// The input is read in parts of so many bytes.
pub(crate) const PART_BYTES: usize = LINE_BYTES / 4;

// Every answer has room: none has more numbers than a text has bytes, each of which takes four bytes at most, with the space before it. A number of
// another buffer takes twelve, and there are a quarter as many.
pub(crate) const ANSWER_BYTES: usize = 524288;
