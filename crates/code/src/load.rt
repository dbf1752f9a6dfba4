// Loading code: one walk over its bytes checks each instruction in turn and keeps the instructions of accepted code.
ghost use Rattle.std.specs.Prelude.{◌≡◌, ◌≤◌, IfOk};
ghost use Rattle.ground.specs.Limits.{limits};
ghost use Rattle.code.specs.Loading.{read_code, loaded_code_of, program_of};
ghost use Rattle.code.specs.Programs.{code_held, HasCode};

use crate::check::CodeCounts;
use crate::instruction::{Instruction, instruction_of};
use ground::limits::MOST_INSTRUCTIONS;
use ground::refusal::Refusal;
use reading::item::Table;
use reading::reader::Reader;

// Code that is loaded: its instructions in order, how many they are, and ONE behind them. The library has no heap and
// rests on std alone, so that they stand in an array.
#[derive(Clone, Copy, Debug, PartialEq, Eq)]
pub struct Program {
    pub instructions: [Instruction; MOST_INSTRUCTIONS],
    pub count: usize,
}

impl Program {
    // The code of a program: its instructions, without those behind. A count beyond the array tells all of it.
    pub fn code(&self) -> &[Instruction]
        ensures { result.now ≡ code_held self.now }
    {
        &self.instructions[..self.count.min(MOST_INSTRUCTIONS)]
    }
}

// Loads code: its instructions, or the refusal.
pub fn decode(bytes: &[u8]) -> Result<Program, Refusal>
    ensures value { result ≡ program_of (read_code bytes.now) }
    ensures sound { IfOk result (HasCode bytes.now) }
{
    if bytes.is_empty() {
        return Err(Refusal::Empty);
    }
    let mut instructions = [Instruction::One; MOST_INSTRUCTIONS];
    let mut counts = CodeCounts::default();
    let mut reader = Reader::new(Table::Code, bytes);
    while let Some(read) = reader.item()? {
        let instruction = instruction_of(read);
        let more = counts.check(reader.at, instruction)?;
        instructions[counts.instructions] = instruction;
        counts = more;
        reader.pass(read);
    }
    Ok(Program {
        instructions,
        count: counts.instructions,
    })
}

// Loads code: how many instructions it has, or the refusal.
pub fn load_code(bytes: &[u8]) -> Result<usize, Refusal>
    ensures { result ≡ loaded_code_of (read_code bytes.now) }
{
    Ok(decode(bytes)?.count)
}
