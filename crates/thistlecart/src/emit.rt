// Emitting the code of a rule, for C.
ghost use Rattle.std.specs.Prelude.{◌≡◌};
ghost use Rattle.thistlecart.specs.Emit.{emitted_word, EmitEntry};
ghost use Rattle.thistlecart.specs.Inner.Emit.{EmittedFits};

use crate::word::{BIT_8, refusal_word};
use emitter::emit::emit;
use ground::refusal::Refusal;

// The word of what emitting answers.
fn emitted_word(emitted: Result<usize, Refusal>) -> u64
    requires { EmittedFits emitted }
    ensures { result ≡ emitted_word emitted }
{
    match emitted {
        Ok(length) => length as u64 * BIT_8,
        Err(refusal) => refusal_word(refusal),
    }
}

// Emits the code of a rule. The word has its length in bits 8 and up.
#[unsafe(no_mangle)]
pub extern "C" fn thistlecart_emit(rule: &[u8], out: &mut [u8]) -> u64
    ensures { EmitEntry rule.now out.old result out.new }
{
    emitted_word(emit(rule, out))
}
