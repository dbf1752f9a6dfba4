// A rule for an engine: its bytes in, its answer and its code as the sequencer loads it out.
ghost use Rattle.std.specs.Prelude.{◌≡◌};
ghost use Rattle.rules.specs.Loading.{read_rule};
ghost use Rattle.emitter.specs.Prepare.{prepared_of};

use crate::emission::translate;
use code::load::Program;
use ground::refusal::Refusal;
use rules::load::{Loaded, decode};

// What an engine needs of a rule that is accepted: what loading tells of it, and its code.
#[derive(Clone, Copy, Debug, PartialEq, Eq)]
pub struct Prepared {
    pub loaded: Loaded,
    pub program: Program,
}

// Prepares a rule. The only refusal that comes is the rule's own: the code of every accepted rule is one that loads.
pub fn prepare(rule: &[u8]) -> Result<Prepared, Refusal>
    ensures { result ≡ prepared_of (read_rule rule.now) }
{
    let rule = decode(rule)?;
    Ok(Prepared {
        loaded: rule.loaded(),
        program: translate(rule.items()),
    })
}
