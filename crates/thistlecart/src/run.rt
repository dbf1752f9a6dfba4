// Running code over a clip, for C.
ghost use Rattle.std.specs.Prelude.{◌≡◌};
ghost use Rattle.thistlecart.specs.Run.{ran_word, RunEntry};
ghost use Rattle.thistlecart.specs.Inner.Run.{RanFits};

use crate::word::refusal_word;
use ground::refusal::Refusal;
use sequencer::run::run;

// The word of what a run answers.
fn ran_word(ran: Result<(), Refusal>) -> u64
    requires { RanFits ran }
    ensures { result ≡ ran_word ran }
{
    match ran {
        Ok(()) => 0,
        Err(refusal) => refusal_word(refusal),
    }
}

// Runs code over a clip and writes a byte for each frame. The word is 0.
#[unsafe(no_mangle)]
pub extern "C" fn thistlecart_run(code: &[u8], clip: &[u8], out: &mut [u8]) -> u64
    ensures { RunEntry code.now clip.now out.old result out.new }
{
    ran_word(run(code, clip, out))
}
