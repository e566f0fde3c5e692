// Numbers of any length in 32 bits, and the state's part in them.
#![tactic(auto, using(std::proofs::lemmas::Bool::Decides::nat_tests), unfolding(crate::specs::Keep::capped, crate::specs::Keep::beyond, crate::specs::Keep::stored))]

ghost use Rattle.std.specs.Prelude.{◌≡◌, false, ◌-◌};
ghost use Rattle.grammar.specs.Machine.{alive, if_inside, one_more, signed};
ghost use Rattle.reader.specs.Keep.{beyond, capped, stored};
ghost use Rattle.reader.specs.Byte.{counted};
ghost use Rattle.reader.specs.Promises.{CappedPromise};

use grammar::{State, is_alive, is_inside};

// 2^31 + 1: too large for a word, with a minus before it or not. Numbers go up to it and no further.
const CAP: u64 = i32::MAX as u64 + 2;

pub fn capped(n: u64) -> u32
    ensures { CappedPromise n result }
{
    n.min(CAP) as u32
}

// The number after the byte b, on the way from one state to another.
pub(crate) fn next_number(from: State, to: State, b: u8, n: u32) -> u32
    ensures { result ≡ capped (if_inside to (one_more from (b - 48) n)) }
{
    if !is_inside(to) {
        return 0;
    }
    let digit = u64::from(b.saturating_sub(b'0'));
    if is_inside(from) {
        capped(u64::from(n) * 10 + digit)
    } else {
        capped(digit)
    }
}

// The bytes taken: one more if the state after it is alive.
pub(crate) fn next_place(to: State, at: u64) -> u64
    ensures { result ≡ counted (alive to) at }
{
    if is_alive(to) {
        at.saturating_add(1)
    } else {
        at
    }
}

// Whether a number, with a minus before it or not, is beyond 32 signed bits.
pub(crate) fn is_beyond(negative: bool, n: u32) -> bool
    ensures { result ≡ beyond (signed negative n) }
{
    let largest = if negative {
        i32::MIN.unsigned_abs()
    } else {
        i32::MAX as u32
    };
    largest < n
}

// The word that is stored.
pub(crate) fn stored_word(large: bool, negative: bool, n: u32) -> i32
    requires { large ≡ false → beyond (signed negative n) ≡ false }
    ensures { result ≡ stored large (signed negative n) }
{
    if large {
        0
    } else if negative {
        (-i64::from(n)) as i32
    } else {
        n as i32
    }
}
