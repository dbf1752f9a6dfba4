// What the words of all entries share: what a bit is worth where a part begins, and the word of a refusal.
ghost use Rattle.std.specs.Prelude.{◌≡◌};
ghost use Rattle.thistlecart.specs.Words.{refusal_word};
ghost use Rattle.thistlecart.specs.Inner.Words.{PlaceFits};

use ground::refusal::{Refusal, number, place};

pub(crate) const BIT_8: u64 = 1 << 8;

pub(crate) const BIT_16: u64 = 1 << 16;

pub(crate) const BIT_24: u64 = 1 << 24;

pub(crate) const BIT_32: u64 = 1 << 32;

pub(crate) const BIT_40: u64 = 1 << 40;

// The word of a refusal: its number in the lowest byte, its place in bits 8 to 39. Each entry matches its own answer
// and calls this: one function over all answers would want a closure, with a contract, for each. `From` cannot ask
// that an answer fits, and the library has none from `usize` to `u64`.
pub(crate) fn refusal_word(refusal: Refusal) -> u64
    requires { PlaceFits refusal }
    ensures { result ≡ refusal_word refusal }
{
    u64::from(number(refusal)) + place(refusal) as u64 * BIT_8
}
