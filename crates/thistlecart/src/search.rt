// The search for a clip that satisfies a rule, for C.
ghost use Rattle.std.specs.Prelude.{◌≡◌};
ghost use Rattle.thistlecart.specs.Search.{found_word, SearchEntry};
ghost use Rattle.thistlecart.specs.Inner.Search.{FoundFits};

use crate::word::{BIT_8, BIT_16, BIT_32, refusal_word};
use finder::search::{Found, search};
use ground::refusal::Refusal;

// The word of what the search answers.
fn found_word(found: Result<Found, Refusal>) -> u64
    requires { FoundFits found }
    ensures { result ≡ found_word found }
{
    match found {
        // The length has a match of its own: laid out, a pattern of both takes six lines.
        Ok(Found { length, states }) => match length {
            Some(length) => BIT_8 + length as u64 * BIT_16 + states as u64 * BIT_32,
            None => states as u64 * BIT_32,
        },
        Err(refusal) => refusal_word(refusal),
    }
}

// Searches for a clip that satisfies a rule. The word has met in bit 8, the length in bits 16 to 31 and the states in
// bits 32 and up.
#[unsafe(no_mangle)]
pub extern "C" fn thistlecart_search(rule: &[u8], table: &mut [u8], witness: &mut [u8]) -> u64
    ensures { SearchEntry rule.now table.old witness.old
        result table.new witness.new }
{
    found_word(search(rule, table, witness))
}
