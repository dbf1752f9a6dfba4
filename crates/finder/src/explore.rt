// Breadth first from the fresh state: each stored state with each frame byte in front, until one satisfies, no state is
// new, or there is no room. A byte with a flag that the code does not name is passed over: it leads where a smaller one
// led.
ghost use Rattle.finder.specs.Inner.Explore.{CanKeep, Keeping, CanTryByte, TryingByte, Tries, TriedTo, CanExplore};
ghost use Rattle.finder.specs.Inner.Explore.{Ends};

use crate::flags::{named_flags, passed_over};
use code::instruction::Instruction;
use ground::limits::RECORD;
use ground::refusal::Refusal;
use sequencer::registers::Registers;
use table::{find, registers_at, store};

// A trial: a frame byte in front of the clip of a stored state, which is known by its number.
#[derive(Clone, Copy, Debug, PartialEq, Eq)]
pub(crate) struct Trial {
    pub state: usize,
    pub frame: u8,
}

// What exploring ends with: the first trial that satisfies, if one does, and the number of states of shorter clips, or
// of all clips.
#[derive(Clone, Copy, Debug, PartialEq, Eq)]
pub(crate) struct Explored {
    pub met: Option<Trial>,
    pub states: usize,
}

// Keeps the state that a trial leads to, unless it is stored already. How many states are stored is told until one is
// found for which there is no record.
fn keep(
    table: &mut [u8],
    stored: Option<usize>,
    registers: Registers,
    trial: Trial,
) -> Option<usize>
    requires { CanKeep table.old trial stored registers }
    ensures { Keeping table.old table.new trial stored registers result }
{
    if find(&table[..], registers).is_some() {
        return stored;
    }
    let count = stored?;
    if table.len() / RECORD <= count {
        return None;
    }
    store(
        &mut *table,
        count,
        registers,
        Some(trial.state),
        trial.frame,
    );
    Some(count + 1)
}

// One trial: whether it satisfies. If not, the state that it leads to is kept.
fn try_byte(
    code: &[Instruction],
    table: &mut [u8],
    stored: &mut Option<usize>,
    registers: Registers,
    trial: Trial,
) -> bool
    requires { CanTryByte code.now table.old registers trial stored.old }
    ensures { TryingByte code.now table.old table.new registers trial stored.old stored.new result }
{
    let led = registers.advance(code, trial.frame);
    if led.bit {
        return true;
    }
    *stored = keep(table, *stored, led.registers, trial);
    false
}

// Tries the states of the present length, in order, each with every frame byte in front that matters, up to the first
// trial that satisfies. Nested loops left by a label, as document 01 lists them. Code, table and what is stored go on
// one by one: as fields of a struct with these functions as methods they cost the search a sixth more time.
fn try_length(
    code: &[Instruction],
    passed: &[bool],
    table: &mut [u8],
    stored: &mut Option<usize>,
    first: usize,
    ended: usize,
) -> Option<Trial>
    requires { Tries code.now passed.now table.old first ended stored.old }
    ensures { TriedTo code.now table.new ended stored.new result }
{
    let mut met = None;
    'all: for state in first..ended {
        let registers = registers_at(&table[..], state);
        for frame in 0..=255u8 {
            if passed[usize::from(frame)] {
                continue;
            }
            let trial = Trial { state, frame };
            if try_byte(code, &mut *table, &mut *stored, registers, trial) {
                met = Some(trial);
                break 'all;
            }
        }
    }
    met
}

// Explores length by length, from the fresh state on. A state without a record is no room only once all clips of its
// length are tried.
pub(crate) fn explore(code: &[Instruction], table: &mut [u8]) -> Result<Explored, Refusal>
    requires { CanExplore code.now table.old }
    ensures { Ends code.now table.new result }
{
    if table.is_empty() {
        return Err(Refusal::NoRoom);
    }
    store(&mut *table, 0, Registers::fresh(), None, 0);
    let passed = passed_over(&named_flags(code));
    let mut stored = Some(1);
    let mut first = 0;
    let mut ended = 1;
    loop {
        let met = try_length(code, &passed, &mut *table, &mut stored, first, ended);
        if met.is_some() {
            return Ok(Explored { met, states: ended });
        }
        let count = stored.ok_or(Refusal::NoRoom)?;
        if count == ended {
            return Ok(Explored {
                met: None,
                states: ended,
            });
        }
        first = ended;
        ended = count;
    }
}
