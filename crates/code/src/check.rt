// Checking an instruction: 5, 10, 11, 12 in turn. Rules count and refuse by other numbers, so that what is counted is a
// struct of its own there.
ghost use Rattle.std.specs.Prelude.{◌≡◌};
ghost use Rattle.code.specs.Good.{CodeWithin};
ghost use Rattle.code.specs.Loading.{check_instruction, code_counted, code_too_large};

use crate::instruction::Instruction;
use ground::limits::{COUNTERS, DELAYS, MOST_INSTRUCTIONS};
use ground::refusal::Refusal;

// What is counted on the way: instructions, REACH instructions, the sum of the distances.
#[derive(Clone, Copy, Default)]
pub(crate) struct CodeCounts {
    pub instructions: usize,
    pub reaches: usize,
    pub distance: usize,
}

impl CodeCounts {
    // The counts with one instruction more.
    #[tactic(auto, unfolding(crate::specs::Loading::code_counted))]
    fn counted(mut self, instruction: Instruction) -> CodeCounts
        requires { CodeWithin self }
        ensures { result ≡ code_counted self instruction }
    {
        self.instructions += 1;
        match instruction {
            Instruction::Reach(_, _, _) => self.reaches += 1,
            Instruction::Later(_, d) => self.distance += usize::from(d),
            _ => {}
        }
        self
    }

    // Whether code is too large: an instruction or a REACH too many, or distances that add up to too much.
    #[tactic(auto, unfolding(crate::specs::Loading::code_too_large))]
    fn too_large(self) -> bool
        ensures { result ≡ code_too_large self }
    {
        MOST_INSTRUCTIONS < self.instructions || COUNTERS < self.reaches || DELAYS < self.distance
    }

    // The counts with the instruction at a place, after instructions that are counted; or its refusal.
    #[tactic(auto, unfolding(crate::specs::Loading::check_instruction))]
    pub(crate) fn check(self, at: usize, instruction: Instruction) -> Result<CodeCounts, Refusal>
        requires { CodeWithin self }
        ensures { result ≡ check_instruction self at instruction }
    {
        if instruction.flag_too_large() {
            return Err(Refusal::FlagTooLarge(at));
        }
        if instruction.not_earlier(self.instructions) {
            return Err(Refusal::NotEarlier(at));
        }
        if instruction.bad_width() {
            return Err(Refusal::BadWidth(at));
        }
        let next = self.counted(instruction);
        if next.too_large() {
            return Err(Refusal::CodeTooLarge(at));
        }
        Ok(next)
    }
}
