// What the arguments ask for: `solve`, `plain`, `list` or `count`, known by the first letter; a budget; and, with any third word, progress.
use std::env::{Env, FillError};

#[derive(Clone, Copy)]
pub(crate) enum Mode {
    Solve,
    Plain,
    List,
    Count,
    Unknown,
}

#[derive(Clone, Copy)]
pub(crate) struct Request {
    pub(crate) mode: Mode,
    pub(crate) budget: u64,
    pub(crate) progress: bool,
}

const WORD_BYTES: usize = 32;

// Where there is no first word, its first letter is 0. Of a longer one than there is room for the first letter is there too.
fn mode_of(rt: &impl Env) -> Mode {
    let mut word = [0; WORD_BYTES];
    let _ = rt.arg(1, &mut word);
    match word[0] {
        b's' => Mode::Solve,
        b'p' => Mode::Plain,
        b'l' => Mode::List,
        b'c' => Mode::Count,
        _ => Mode::Unknown,
    }
}

// The number that a word's digits make; past 64 bits it is the largest that they hold.
fn number_of(word: &[u8]) -> u64 {
    word.iter()
        .filter_map(|byte| char::from(*byte).to_digit(10))
        .fold(0, |number: u64, digit| {
            number.saturating_mul(10).saturating_add(u64::from(digit))
        })
}

// A word that is missing, or longer than there is room for, is 0.
fn budget(rt: &impl Env) -> u64 {
    let mut word = [0; WORD_BYTES];
    match rt.arg(2, &mut word) {
        Ok(length) => number_of(&word[..length]),
        Err(_) => 0,
    }
}

// Whether there is a third word, of any length.
fn progress(rt: &impl Env) -> bool {
    let mut word = [0; WORD_BYTES];
    !matches!(rt.arg(3, &mut word), Err(FillError::NotPresent))
}

pub(crate) fn asked(rt: &impl Env) -> Request {
    Request {
        mode: mode_of(rt),
        budget: budget(rt),
        progress: progress(rt),
    }
}
