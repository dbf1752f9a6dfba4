// Loading a rule, for C.
ghost use Rattle.std.specs.Prelude.{◌≡◌};
ghost use Rattle.thistlecart.specs.Load.{load_word, LoadEntry};
ghost use Rattle.thistlecart.specs.Inner.Load.{LoadedFits};

use crate::word::{BIT_8, BIT_24, refusal_word};
use ground::refusal::Refusal;
use rules::load::{Loaded, load};

// The word of what loading answers.
fn load_word(loaded: Result<Loaded, Refusal>) -> u64
    requires { LoadedFits loaded }
    ensures { result ≡ load_word loaded }
{
    match loaded {
        Ok(Loaded { items, horizon }) => items as u64 * BIT_8 + horizon as u64 * BIT_24,
        Err(refusal) => refusal_word(refusal),
    }
}

// Loads a rule. The word has its items in bits 8 to 23 and its horizon in bits 24 and up.
#[unsafe(no_mangle)]
pub extern "C" fn thistlecart_load(rule: &[u8]) -> u64
    ensures { LoadEntry rule.now result }
{
    load_word(load(rule))
}
