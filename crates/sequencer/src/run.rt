// The run: code over a clip, from the last frame to the first, one byte for each frame.
ghost use Rattle.std.specs.Prelude.{◌≡◌};
ghost use Rattle.ground.specs.Buffers.{over};
ghost use Rattle.code.specs.Loading.{read_code, code_of};
ghost use Rattle.sequencer.specs.Running.{bad_clip, verdicts, ran_of, buffer_after};
ghost use Rattle.sequencer.specs.Inner.Through.{CanRun};

use crate::frame::Sequencer;
use crate::registers::Registers;
use code::instruction::Instruction;
use code::load::decode;
use ground::byte::byte_of;
use ground::limits::MOST_FRAMES;
use ground::refusal::Refusal;

// Whether a clip is none that can be run: it is empty, or has too many frames.
#[tactic(auto, unfolding(crate::specs::Running::bad_clip))]
fn bad_clip(frames: usize) -> bool
    ensures { result ≡ bad_clip frames }
{
    frames == 0 || MOST_FRAMES < frames
}

// Runs code that is loaded over a clip, from the last frame to the first, and writes a verdict for each. By places, as
// what pairs of frames and verdicts run through backwards leave in the buffer is not known.
fn run_frames(code: &[Instruction], clip: &[u8], out: &mut [u8])
    requires { CanRun code.now clip.now out.old }
    ensures { out.new ≡ over (verdicts code.now clip.now) out.old }
{
    let mut sequencer = Sequencer::new(Registers::fresh());
    for at in (0..clip.len()).rev() {
        out[at] = byte_of(sequencer.read_frame(code, clip[at]));
    }
}

// Runs code over a clip: one byte for each frame, 1 or 0, from the buffer's first byte on; the bytes behind them stay.
// A refusal, of the code, then 13, then 16, changes nothing.
pub fn run(code: &[u8], clip: &[u8], out: &mut [u8]) -> Result<(), Refusal>
    ensures answer { result ≡ ran_of (read_code code.now) clip.now out.old }
    ensures buffer { out.new ≡ buffer_after result (code_of (read_code code.now)) clip.now out.old }
{
    let program = decode(code)?;
    if bad_clip(clip.len()) {
        return Err(Refusal::BadClip);
    }
    if out.len() < clip.len() {
        return Err(Refusal::ShortOutput);
    }
    run_frames(program.code(), clip, out);
    Ok(())
}
