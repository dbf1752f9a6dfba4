// Numbers: groups of seven bits, lowest group first, the shortest form only, one or two bytes.
ghost use Rattle.std.specs.Prelude.{◌≡◌, ◌<◌};
ghost use Rattle.reading.specs.Numbers.{number_at, fault_at, number_bytes};
ghost use Rattle.ground.specs.Buffers.{written, place_after};

use ground::buffer::write_bytes;
use ground::byte::wide;
use ground::limits::MOST_NUMBER;
use ground::refusal::Refusal;

// A number that stands at a place, and the place behind it.
#[derive(Clone, Copy, Debug, PartialEq, Eq)]
pub struct Number {
    pub value: u16,
    pub next: usize,
}

// Why no number stands at a place.
#[derive(Clone, Copy, Debug, PartialEq, Eq)]
pub enum Fault {
    // The bytes end before the number does.
    Short,
    // It is not the shortest form, or its second byte has the top bit set.
    Long,
}

impl Fault {
    // The refusal of an item, by its place, that has such a number.
    pub(crate) fn at(self, item: usize) -> Refusal
        ensures { result ≡ fault_at item self }
    {
        match self {
            Fault::Short => Refusal::CutShort(item),
            Fault::Long => Refusal::NotShortest(item),
        }
    }
}

// How many values a group of seven bits has; as a byte, the top bit that says that another group follows.
const GROUP: u16 = 128;

// Reads the number at a place, which may be the end or lie behind it.
pub fn read_number(bytes: &[u8], at: usize) -> Result<Number, Fault>
    ensures { result ≡ number_at bytes.now at }
{
    if bytes.len() <= at {
        return Err(Fault::Short);
    }
    let low = wide(bytes[at]);
    let second = at + 1;
    if low < GROUP {
        return Ok(Number {
            value: low,
            next: second,
        });
    }
    if bytes.len() <= second {
        return Err(Fault::Short);
    }
    let high = wide(bytes[second]);
    if high == 0 || GROUP <= high {
        return Err(Fault::Long);
    }
    Ok(Number {
        value: low - GROUP + GROUP * high,
        next: second + 1,
    })
}

// Writes a number from a place on and answers the place behind it. A number above the greatest, or one that does not
// fit, is not written, and the answer is the place itself.
pub fn write_number(buffer: &mut [u8], at: usize, value: u16) -> usize
    ensures buffer { buffer.new ≡ written buffer.old at (number_bytes value) }
    ensures place { result ≡ place_after buffer.old at (number_bytes value) }
{
    let low = (value % GROUP) as u8;
    if value < GROUP {
        return write_bytes(buffer, at, &[low]);
    }
    if MOST_NUMBER < value {
        return at;
    }
    let high = (value / GROUP % GROUP) as u8;
    write_bytes(buffer, at, &[low + GROUP as u8, high])
}
