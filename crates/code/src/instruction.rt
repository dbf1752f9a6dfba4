// The sequencer's five instructions, and what each asks of the numbers behind its code byte.
ghost use Rattle.std.specs.Prelude.{◌≡◌};
ghost use Rattle.code.specs.Code.{instruction_of};
ghost use Rattle.code.specs.Loading.{flag_too_large, not_earlier, bad_width};

use ground::limits::{MOST_DISTANCE, MOST_FLAG, MOST_WIDTH};
use reading::item::Read;

// An instruction: i and j are numbers of instructions, k is a flag, w a width, d a distance.
#[derive(Clone, Copy, Debug, PartialEq, Eq)]
pub enum Instruction {
    // always 1
    One,
    // k
    Flag(u16),
    // i, j
    Nand(u16, u16),
    // i, j, w
    Reach(u16, u16, u16),
    // i, d
    Later(u16, u16),
}

// The instruction of an item that is read. The reader knows only these five code bytes.
#[tactic(auto, unfolding(crate::specs::Code::instruction_of))]
pub(crate) fn instruction_of(read: Read) -> Instruction
    ensures { result ≡ instruction_of read.code read.first read.second read.third }
{
    match read.code {
        0x01 => Instruction::One,
        0x02 => Instruction::Flag(read.first),
        0x03 => Instruction::Nand(read.first, read.second),
        0x04 => Instruction::Reach(read.first, read.second, read.third),
        _ => Instruction::Later(read.first, read.second),
    }
}

impl Instruction {
    // Whether its flag is too large.
    pub(crate) fn flag_too_large(self) -> bool
        ensures { result ≡ flag_too_large self }
    {
        match self {
            Instruction::Flag(k) => MOST_FLAG < k,
            _ => false,
        }
    }

    // Whether an operand is not an earlier instruction, where so many are earlier.
    pub(crate) fn not_earlier(self, count: usize) -> bool
        ensures { result ≡ not_earlier count self }
    {
        match self {
            Instruction::Nand(i, j) | Instruction::Reach(i, j, _) => {
                count <= usize::from(i) || count <= usize::from(j)
            }
            Instruction::Later(i, _) => count <= usize::from(i),
            _ => false,
        }
    }

    // Whether a width or a distance is out of range: a w that is too large, or a d that is 0 or too large.
    pub(crate) fn bad_width(self) -> bool
        ensures { result ≡ bad_width self }
    {
        match self {
            Instruction::Reach(_, _, w) => MOST_WIDTH < w,
            Instruction::Later(_, d) => d == 0 || MOST_DISTANCE < d,
            _ => false,
        }
    }
}
