// The emitter: a rule's bytes in, sequencer code out.
ghost use Rattle.emitter.specs.Emit.{EmitSays};
ghost use Rattle.emitter.specs.Inner.Emission.{items_code};
ghost use Rattle.emitter.specs.Inner.Writing.{CanWriteItems, EmitsCode};

use crate::emission::Emission;
use crate::write::write_code;
use ground::limits::MOST_CODE;
use ground::refusal::Refusal;
use rules::item::Item;
use rules::load::decode;

// Emits the code of items into a buffer. A function of its own, so that a rule that is refused makes none of its
// arrays. The bytes are written from where the code is made: to hand a program on by value costs a short rule as much
// time as all the rest.
fn emit_items(items: &[Item], out: &mut [u8]) -> Result<usize, Refusal>
    requires { CanWriteItems items.now }
    ensures { EmitsCode (items_code items.now) out.old result out.new }
{
    let mut emission = Emission::new();
    emission.add_all(items);
    let mut bytes = [0; MOST_CODE];
    let length = write_code(&mut bytes, emission.program.code());
    if out.len() < length {
        return Err(Refusal::ShortOutput);
    }
    out[..length].copy_from_slice(&bytes[..length]);
    Ok(length)
}

// Emits the code of a rule into a buffer, from its first byte on, and answers its length; the bytes behind the code
// stay. A refusal, of the rule, then 16, changes nothing.
pub fn emit(rule: &[u8], out: &mut [u8]) -> Result<usize, Refusal>
    ensures { EmitSays rule.now out.old result out.new }
{
    let rule = decode(rule)?;
    emit_items(rule.items(), out)
}
