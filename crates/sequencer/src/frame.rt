// The sequencer at work: registers, and what a frame through code that is loaded makes of them, instruction by
// instruction.
ghost use Rattle.std.specs.Prelude.{false, not, ◌&&◌, ◌≡◌, ◌+◌, ◌-◌, ◌≤◌, ◌<◌, length, slice_index_or};
ghost use Rattle.ground.specs.Frames.{has_flag};
ghost use Rattle.ground.specs.Limits.{limits};
ghost use Rattle.code.specs.Programs.{Sound};
ghost use Rattle.sequencer.specs.Bits.{next};
ghost use Rattle.sequencer.specs.Registers.{counter_of, kept, shifted};
ghost use Rattle.sequencer.specs.Inner.Through.{at_work, Served, Executes, Leaves};

use crate::registers::Registers;
use code::instruction::Instruction;
use ground::limits::{DELAYS, MOST_INSTRUCTIONS};

// What stands for "none" in a counter; a count is kept as one more. A number and no `Option`, as registers are lent,
// kept and stated as numbers of two bytes.
pub(crate) const NONE: u16 = 0;

// Registers, and the bits that the instructions of a frame have written so far.
#[derive(Clone, Copy)]
pub(crate) struct Sequencer {
    pub registers: Registers,
    pub bits: [bool; MOST_INSTRUCTIONS],
}

// How many counters and delay bits the instructions of a frame have taken so far. As fields of `Sequencer` they cost a
// run a quarter more.
#[derive(Clone, Copy, Default)]
pub(crate) struct Taken {
    pub counters: usize,
    pub delays: usize,
}

// Whether a frame has a flag.
#[tactic(auto, unfolding(ground::specs::Frames::has_flag))]
fn has_flag(k: u16, frame: u8) -> bool
    requires { k ≤ limits.flag }
    ensures { result ≡ has_flag k frame }
{
    (frame >> k) % 2 == 1
}

// 0 if both bits are 1, else 1.
fn nand(i: bool, j: bool) -> bool
    ensures { result ≡ not (i && j) }
{
    !(i && j)
}

// What REACH makes of its counter.
#[tactic(auto, unfolding(crate::specs::Bits::next), using(crate::proofs::Next::counter_some))]
fn next_counter(counter: u16, width: u16, i: bool, j: bool) -> u16
    requires { width ≤ limits.width }
    ensures { result ≡ kept (next width i j (counter_of counter)) }
{
    // Computed first, as a jump by j would often be guessed wrong.
    let risen = if i && counter != NONE && counter <= width {
        counter + 1
    } else {
        NONE
    };
    if j { 1 } else { risen }
}

// Moves the line of delay bits between two places on by one: the oldest falls out, and the newest comes in last. By a
// loop over places of all delay bits: over a line lent as a slice it is compiled to a call of memmove, as the slice's
// `rotate_left` is, which the archive would need from outside, and which takes twice the time for a line of two bits.
fn shift_in(delays: &mut [bool; DELAYS], at: usize, last: usize, newest: bool)
    requires { (at ≤ last) × (last < length delays.old) }
    ensures { delays.new ≡ shifted delays.old at (last + 1 - at) newest }
{
    for p in at..last {
        delays[p] = delays[p + 1];
    }
    delays[last] = newest;
}

impl Sequencer {
    // A sequencer with registers, before the first instruction of a frame.
    pub(crate) fn new(registers: Registers) -> Sequencer
        ensures { result ≡ at_work registers }
    {
        Sequencer {
            registers,
            bits: [false; MOST_INSTRUCTIONS],
        }
    }

    // A bit that an instruction has written, by the instruction's number.
    fn bit(&self, i: u16) -> bool
        requires { i < limits.instructions }
        ensures { result ≡ slice_index_or self.now.bits i false }
    {
        self.bits[usize::from(i)]
    }

    // Executes an instruction: it takes a counter or delay bits in code order, and its bit is handed back.
    fn execute(&mut self, instruction: Instruction, frame: u8, taken: &mut Taken) -> bool
        requires { Served instruction taken.old }
        ensures { Executes instruction frame taken.old taken.new self.old self.new result }
    {
        match instruction {
            Instruction::One => true,
            Instruction::Flag(k) => has_flag(k, frame),
            Instruction::Nand(i, j) => nand(self.bit(i), self.bit(j)),
            Instruction::Reach(i, j, w) => {
                let (i, j) = (self.bit(i), self.bit(j));
                let counter = &mut self.registers.counters[taken.counters];
                *counter = next_counter(*counter, w, i, j);
                taken.counters += 1;
                *counter != NONE
            }
            Instruction::Later(i, d) => {
                let newest = self.bit(i);
                let at = taken.delays;
                let behind = at + usize::from(d);
                let last = behind - 1;
                taken.delays = behind;
                let oldest = self.registers.delays[at];
                shift_in(&mut self.registers.delays, at, last, newest);
                oldest
            }
        }
    }

    // One frame through code that is loaded: its instructions in turn. Answers the last bit.
    pub(crate) fn read_frame(&mut self, code: &[Instruction], frame: u8) -> bool
        requires { Sound code.now }
        ensures { Leaves code.now frame result self.old self.new }
    {
        let mut taken = Taken::default();
        for (n, instruction) in code.iter().enumerate() {
            self.bits[n] = self.execute(*instruction, frame, &mut taken);
        }
        self.bits[code.len() - 1]
    }
}
