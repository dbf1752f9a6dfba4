// The bytes that matter: a byte with a flag that the code does not name leads where the smaller byte without that flag
// leads.
ghost use Rattle.paths.specs.Inner.Searching.{frame_bytes};
ghost use Rattle.code.specs.Programs.{Sound};
ghost use Rattle.finder.specs.Inner.Flags.{NamedBy, Other, Passed};

use code::instruction::Instruction;
use ground::limits::MOST_FLAG;

// How many flags a frame has, and how many bytes there are: each has or lacks each flag.
const FLAGS: usize = MOST_FLAG as usize + 1;

const BYTES: usize = 1 << FLAGS;

// The flags that code names, an entry for each flag.
pub(crate) fn named_flags(code: &[Instruction]) -> [bool; FLAGS]
    requires { Sound code.now }
    ensures { NamedBy code.now result }
{
    let mut named = [false; FLAGS];
    for instruction in code {
        if let Instruction::Flag(k) = instruction {
            named[usize::from(*k)] = true;
        }
    }
    named
}

// Whether a byte has a flag that is not named.
fn has_other(named: &[bool; FLAGS], byte: usize) -> bool
    ensures { Other named.now byte result }
{
    (0..FLAGS).any(|k| (byte >> k) % 2 == 1 && !named[k])
}

// The bytes that have a flag that is not named. `array::from_fn` would want an induction over its calls.
pub(crate) fn passed_over(named: &[bool; FLAGS]) -> [bool; BYTES]
    ensures { Passed named.now result frame_bytes }
{
    let mut passed = [false; BYTES];
    for (byte, entry) in passed.iter_mut().enumerate() {
        *entry = has_other(named, byte);
    }
    passed
}
