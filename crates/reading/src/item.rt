// Items: a code byte and its numbers. `item_at` reads one at a place, by the table of rules or of code; `reader.rt` has
// the reader that walks them.
ghost use Rattle.std.specs.Prelude.{[], ◌≡◌, ◌+◌, ◌<◌, length};
ghost use Rattle.reading.specs.Items.{item_at, numbers_from, no_code, numbers_of, if_known, look, rule_codes};
ghost use Rattle.reading.specs.Items.{instruction_codes};

use crate::number::read_number;
use ground::refusal::Refusal;

// Rules and code have separate tables of code bytes. Both are known here, so that a function handed in or a trait would
// say no more.
#[derive(Clone, Copy, Debug, PartialEq, Eq)]
pub enum Table {
    Rule,
    Code,
}

// An item that stands at a place: its code byte, its numbers, and the place behind it. The numbers stand by name, as
// the definitions have them; those that it lacks are 0.
#[derive(Clone, Copy, Debug, PartialEq, Eq)]
pub struct Read {
    pub code: u8,
    pub first: u16,
    pub second: u16,
    pub third: u16,
    pub next: usize,
}

// How many numbers an item has at most.
const MOST_NUMBERS: usize = 3;

// How many numbers follow a code byte of a rule, if it is known.
#[tactic(auto, unfolding(crate::specs::Items::look, crate::specs::Items::rule_codes))]
fn rule_numbers(code: u8) -> Option<usize>
    ensures { result ≡ if_known (look code rule_codes) }
{
    match code {
        0x10 | 0x11 | 0x20 | 0x21 | 0x22 => Some(0),
        0x12 => Some(1),
        0x30..=0x33 => Some(2),
        _ => None,
    }
}

// How many numbers follow a code byte of sequencer code, if it is known.
#[tactic(auto, unfolding(crate::specs::Items::look, crate::specs::Items::instruction_codes))]
fn instruction_numbers(code: u8) -> Option<usize>
    ensures { result ≡ if_known (look code instruction_codes) }
{
    match code {
        0x01 => Some(0),
        0x02 => Some(1),
        0x03 | 0x05 => Some(2),
        0x04 => Some(3),
        _ => None,
    }
}

// How many numbers follow a code byte, if it is known.
fn numbers_of(table: Table, code: u8) -> Option<usize>
    ensures { result ≡ if_known (numbers_of table code) }
{
    match table {
        Table::Rule => rule_numbers(code),
        Table::Code => instruction_numbers(code),
    }
}

// Reads the numbers of the item at `at` in turn; the first fault decides. Inlined, as is all that reads an item: with a
// call for each, loading code of many numbers takes a third more time.
#[inline(always)]
fn read_numbers(bytes: &[u8], at: usize, code: u8, count: usize) -> Result<Option<Read>, Refusal>
    requires { (at < length bytes.now) × (count < no_code) }
    ensures { result ≡ numbers_from count bytes.now at code [] (at + 1) }
{
    let mut numbers = [0u16; MOST_NUMBERS];
    let mut next = at + 1;
    for number in &mut numbers[..count] {
        let read = read_number(bytes, next).map_err(|fault| fault.at(at))?;
        *number = read.value;
        next = read.next;
    }
    let [first, second, third] = numbers;
    Ok(Some(Read {
        code,
        first,
        second,
        third,
        next,
    }))
}

// Reads the item at a place, which may be the end or lie behind it.
#[inline(always)]
pub(crate) fn item_at(table: Table, bytes: &[u8], at: usize) -> Result<Option<Read>, Refusal>
    ensures { result ≡ item_at table bytes.now at }
{
    if bytes.len() <= at {
        return Ok(None);
    }
    let code = bytes[at];
    let count = numbers_of(table, code).ok_or(Refusal::UnknownCode(at))?;
    read_numbers(bytes, at, code, count)
}
