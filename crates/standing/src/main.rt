// Prints the standing of a rule: how long it is, how far it looks, and the first clip that meets it, or that there is
// none.
//
// Standard input: the rule's bytes, of which up to 1,024 are read. Standard output: document 01's text under "Program".
#![tactic(auto)]

ghost use Rattle.std.specs.Prelude.{◌≤◌, length, IfOk};

mod page;
mod standing;

use crate::standing::{MOST_TEXT, write_standing};
use ground::limits::MOST_HORIZON;
use std::io;
use std::io::Read;

// How many bytes are read.
const MOST_BYTES: usize = 1_024;

// The length of the table.
const TABLE: usize = 65_536;

// The length of the witness buffer: the greatest that 14 can ask.
const WITNESS: usize = MOST_HORIZON + 1;

// Reads bytes until the buffer is full or the input ends, and answers how many. The library's `read_exact` says nothing
// of a shorter input, and its `read_to_end` needs a heap.
fn read_full<R: Read>(input: &mut R, buffer: &mut [u8]) -> io::Result<usize>
    ensures { IfOk result (λ n. n ≤ length buffer.new) }
{
    let mut at = 0;
    while at < buffer.len() {
        let got = input.read(&mut buffer[at..])?;
        if got == 0 {
            break;
        }
        at += got;
    }
    Ok(at)
}

// Prints the standing of the rule on standard input. Its buffers are arrays, as the program has no heap.
fn main(rt: HostRuntime) -> io::Result<()> {
    let mut rule = [0; MOST_BYTES];
    let got = read_full(&mut rt.reader(), &mut rule)?;
    let mut table = [0; TABLE];
    let mut witness = [0; WITNESS];
    let mut text = [0; MOST_TEXT];
    let length = write_standing(&rule[..got], &mut table, &mut witness, &mut text);
    rt.write_all(&text[..length])
}
