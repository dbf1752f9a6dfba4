// Code as bytes in a buffer: each instruction's behind those of the instruction before it, and of each its numbers one
// behind the other. The place goes from call to call as a number, as `write_number` has it.
ghost use Rattle.std.specs.Prelude.{◌≡◌, ◌+◌, ◌≤◌, length};
ghost use Rattle.ground.specs.Buffers.{over, written, place_after};
ghost use Rattle.reading.specs.InTurn.{bytes_of_all};
ghost use Rattle.reading.specs.Numbers.{number_bytes};
ghost use Rattle.code.specs.Code.{bytes_of_instruction};
ghost use Rattle.emitter.specs.Translation.{bytes_of_code};

use code::instruction::Instruction;
use reading::number::write_number;

// Writes numbers from a place on, where there is room, and answers the place behind them.
fn write_numbers(out: &mut [u8], mut at: usize, numbers: &[u16]) -> usize
    requires { at + length (bytes_of_all number_bytes numbers.now) ≤ length out.old }
    ensures buffer { out.new ≡ written out.old at (bytes_of_all number_bytes numbers.now) }
    ensures place { result ≡ place_after out.old at (bytes_of_all number_bytes numbers.now) }
{
    for number in numbers {
        at = write_number(out, at, *number);
    }
    at
}

// Writes an instruction from a place on, where there is room, and answers the place behind it.
#[tactic(auto, using(crate::proofs::Writing::instruction_numbers))]
fn write_instruction(out: &mut [u8], at: usize, instruction: Instruction) -> usize
    requires { at + length (bytes_of_instruction instruction) ≤ length out.old }
    ensures buffer { out.new ≡ written out.old at (bytes_of_instruction instruction) }
    ensures place { result ≡ place_after out.old at (bytes_of_instruction instruction) }
{
    match instruction {
        Instruction::One => write_numbers(out, at, &[0x01]),
        Instruction::Flag(k) => write_numbers(out, at, &[0x02, k]),
        Instruction::Nand(i, j) => write_numbers(out, at, &[0x03, i, j]),
        Instruction::Reach(i, j, w) => write_numbers(out, at, &[0x04, i, j, w]),
        Instruction::Later(i, d) => write_numbers(out, at, &[0x05, i, d]),
    }
}

// Writes code over the first bytes of a buffer that has room for it, and answers its length.
pub(crate) fn write_code(out: &mut [u8], code: &[Instruction]) -> usize
    requires { length (bytes_of_code code.now) ≤ length out.old }
    ensures buffer { out.new ≡ over (bytes_of_code code.now) out.old }
    ensures place { result ≡ length (bytes_of_code code.now) }
{
    let mut at = 0;
    for instruction in code {
        at = write_instruction(out, at, *instruction);
    }
    at
}
