// Registers by value, and one step.
ghost use Rattle.std.specs.Prelude.{◌≡◌};
ghost use Rattle.code.specs.Loading.{read_code};
ghost use Rattle.code.specs.Programs.{Sound};
ghost use Rattle.sequencer.specs.Registers.{fresh_registers};
ghost use Rattle.sequencer.specs.Stepping.{advanced_by, stepped_of};

use crate::frame::{NONE, Sequencer};
use code::instruction::Instruction;
use code::load::decode;
use ground::limits::{COUNTERS, DELAYS};
use ground::refusal::Refusal;

// All counters and all delay bits.
#[derive(Clone, Copy, Debug, PartialEq, Eq)]
pub struct Registers {
    pub counters: [u16; COUNTERS],
    pub delays: [bool; DELAYS],
}

// What a frame through loaded code hands back: the output bit and the new registers, in document 01's form.
#[derive(Clone, Copy, Debug, PartialEq, Eq)]
pub struct Advanced {
    pub bit: bool,
    pub registers: Registers,
}

// What a step hands back: the output bit or the refusal of the code, and the registers, unchanged if it is refused, as
// document 01 hands them back then too.
#[derive(Clone, Copy, Debug, PartialEq, Eq)]
pub struct Stepped {
    pub output: Result<bool, Refusal>,
    pub registers: Registers,
}

impl Registers {
    // Every counter "none", every delay bit 0.
    pub fn fresh() -> Registers
        ensures { result ≡ fresh_registers }
    {
        Registers {
            counters: [NONE; COUNTERS],
            delays: [false; DELAYS],
        }
    }

    // Takes one frame through code that is loaded, and hands the new registers back with the output bit: by value, as
    // document 01 lists it. It takes any slice of sound code, where a type for such code would ask more of its caller.
    pub fn advance(mut self, code: &[Instruction], frame: u8) -> Advanced
        requires { Sound code.now }
        ensures { result ≡ advanced_by code.now frame self }
    {
        let mut sequencer = Sequencer::new(self);
        let bit = sequencer.read_frame(code, frame);
        self = sequencer.registers;
        Advanced {
            bit,
            registers: self,
        }
    }

    // Takes one frame through code and hands the new registers back with the output bit. Code that is refused leaves
    // the registers as they are.
    pub fn step(self, code: &[u8], frame: u8) -> Stepped
        ensures { result ≡ stepped_of (read_code code.now) frame self }
    {
        match decode(code) {
            Ok(program) => {
                let advanced = self.advance(program.code(), frame);
                Stepped {
                    output: Ok(advanced.bit),
                    registers: advanced.registers,
                }
            }
            Err(refusal) => Stepped {
                output: Err(refusal),
                registers: self,
            },
        }
    }
}
