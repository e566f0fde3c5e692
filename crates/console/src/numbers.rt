// Numbers in a line: "decimal with an optional `-`".
ghost use Rattle.std.specs.Prelude.{◌≡◌, ℤ, pos, IfSome};
ghost use Rattle.console.specs.Numbers.{one_more, natural_of, signed, number_of, word_of, StandsFor};

use crate::line::Words;

// Digits behind a minus, or without one.
#[derive(Clone, Copy)]
pub(crate) struct Number {
    pub(crate) negative: bool,
    pub(crate) size: u64,
}

// A value with one more digit. A number over 64 bits fits no place, so it is as good as none.
#[tactic(auto, using(std::proofs::lemmas::Bool::Decides::nat_tests))]
fn one_more(value: u64, byte: u8) -> Option<u64>
    ensures { result ≡ one_more value byte }
{
    if !byte.is_ascii_digit() {
        return None;
    }
    let digit = byte - b'0';
    value.checked_mul(10)?.checked_add(u64::from(digit))
}

// What digits stand for.
fn natural_of(digits: &[u8]) -> Option<u64>
    ensures { result ≡ natural_of digits.now }
{
    if digits.is_empty() {
        return None;
    }
    let mut value = 0;
    for byte in digits {
        value = one_more(value, *byte)?;
    }
    Some(value)
}

fn signed(negative: bool, natural: Option<u64>) -> Option<Number>
    ensures { result ≡ signed negative natural }
{
    let size = natural?;
    Some(Number { negative, size })
}

fn number_of(word: &[u8]) -> Option<Number>
    ensures { result ≡ number_of word.now }
{
    match word.strip_prefix(b"-") {
        Some(digits) => signed(true, natural_of(digits)),
        None => signed(false, natural_of(word)),
    }
}

// What a number is put into, if it fits. Minus zero is zero, and fits every place.
pub(crate) trait Place: Copy {
    ghost value: { Self → ℤ };

    fn fitted(number: Number) -> Option<Self>
        ensures { IfSome result (λ place. value place ≡ word_of number.negative number.size) };
}

impl Place for i32 {
    ghost value = { λ n. n };

    fn fitted(number: Number) -> Option<i32> {
        let size = i64::try_from(number.size).ok()?;
        i32::try_from(if number.negative { -size } else { size }).ok()
    }
}

impl Place for u64 {
    ghost value = { pos };

    fn fitted(number: Number) -> Option<u64> {
        let Number { negative, size } = number;
        if negative && size != 0 {
            None
        } else {
            Some(size)
        }
    }
}

impl Place for u32 {
    ghost value = { pos };

    fn fitted(number: Number) -> Option<u32> {
        u32::try_from(u64::fitted(number)?).ok()
    }
}

impl Place for u8 {
    ghost value = { pos };

    fn fitted(number: Number) -> Option<u8> {
        u8::try_from(u64::fitted(number)?).ok()
    }
}

// The number that a word stands for, if it fits.
pub(crate) fn read<T: Place>(word: &[u8]) -> Option<T>
    ensures { IfSome result (λ place. StandsFor word.now (T.value place)) }
{
    T::fitted(number_of(word)?)
}

// Whether each word is a number that fits, and they are no more than there is room for.
pub(crate) fn all_fit<T: Place>(words: Words<'_>, room: usize) -> bool {
    let mut numbers = words.map(|word| read::<T>(word)).enumerate();
    numbers.all(|(i, number)| i < room && number.is_some())
}

impl Words<'_> {
    // The next word's number.
    pub(crate) fn number<T: Place>(&mut self) -> Option<T> {
        read(self.next()?)
    }
}
