// A record of the table: the registers of a state (two bytes for each counter, lowest first, and a bit for each
// delay bit), the link to the record that it came from (three bytes: its number and one more, or 0), and the frame byte
// that led here. Behind them stands a part of the index, in the form of the link: the record before this one in its
// bucket, and the last record of the bucket that has this record's number.
ghost use Rattle.std.specs.Prelude.{◌≡◌, ◌↔◌, ◌+◌, ◌≤◌, ◌<◌, IsTrue, length};
ghost use Rattle.ground.specs.Limits.{limits};
ghost use Rattle.table.specs.Inner.Records.{byte_bits, key_bytes, link_size, bits_value, key_byte, link_at, LinkFits};
ghost use Rattle.table.specs.Inner.Records.{Keeps, HasKey, CountersOf, DelaysOf, RegistersIn, LinkWritten, Written};

use ground::limits::{COUNTERS, DELAYS, RECORD};
use sequencer::registers::Registers;

// How many bits a byte has.
const BITS: usize = 8;

// The bytes of a counter, of all counters, and of all registers.
const COUNTER: usize = 2;

const COUNTER_BYTES: usize = COUNTER * COUNTERS;

pub(crate) const KEY: usize = COUNTER_BYTES + DELAYS / BITS;

// The bytes of a link.
const LINK_BYTES: usize = 3;

// Where the link, the frame byte, and the two numbers of the index stand.
pub(crate) const LINK: usize = KEY;

pub(crate) const FRAME: usize = LINK + LINK_BYTES;

pub(crate) const CHAIN: usize = FRAME + 1;

pub(crate) const HEAD: usize = CHAIN + LINK_BYTES;

// Eight bits as a byte, the first lowest.
fn bits_byte(bits: &[bool; BITS]) -> u8
    ensures { result ≡ bits_value byte_bits bits.now }
{
    let mut byte = 0;
    for (k, bit) in bits.iter().enumerate() {
        byte |= u8::from(*bit) << k;
    }
    byte
}

// One of the bytes that keep registers, by its place.
fn key_byte(registers: &Registers, j: usize) -> u8
    requires { j < key_bytes }
    ensures { result ≡ key_byte registers.now j }
{
    if j < COUNTER_BYTES {
        return registers.counters[j / COUNTER].to_le_bytes()[j % COUNTER];
    }
    bits_byte(&registers.delays.as_chunks().0[j - COUNTER_BYTES])
}

// The bytes that keep registers.
pub(crate) fn key_of(registers: Registers) -> [u8; KEY]
    ensures { Keeps result registers }
{
    let mut key = [0; KEY];
    for (j, byte) in key.iter_mut().enumerate() {
        *byte = key_byte(&registers, j);
    }
    key
}

// Whether a record keeps the registers whose bytes are given.
pub(crate) fn same_key(bytes: &[u8; RECORD], key: &[u8; KEY]) -> bool
    ensures { IsTrue result ↔ HasKey key.now bytes.now }
{
    bytes[..KEY] == key[..]
}

// The counters that a record keeps.
fn counters_of(bytes: &[u8; RECORD]) -> [u16; COUNTERS]
    ensures { CountersOf bytes.now result limits.counters }
{
    let mut counters = [0; COUNTERS];
    for (i, counter) in counters.iter_mut().enumerate() {
        *counter = u16::from_le_bytes([bytes[COUNTER * i], bytes[COUNTER * i + 1]]);
    }
    counters
}

// The delay bits that a record keeps.
fn delays_of(bytes: &[u8; RECORD]) -> [bool; DELAYS]
    ensures { DelaysOf bytes.now result limits.delays }
{
    let mut delays = [false; DELAYS];
    for (i, delay) in delays.iter_mut().enumerate() {
        *delay = (bytes[COUNTER_BYTES + i / BITS] >> (i % BITS)) % 2 == 1;
    }
    delays
}

// The registers that a record keeps.
pub(crate) fn registers_of(bytes: &[u8; RECORD]) -> Registers
    ensures { RegistersIn bytes.now result }
{
    Registers {
        counters: counters_of(bytes),
        delays: delays_of(bytes),
    }
}

// A link of a record: the number of another one, or none.
pub(crate) fn read_link(bytes: &[u8; RECORD], at: usize) -> Option<usize>
    requires { at + link_size ≤ limits.record_bytes }
    ensures { (result ≡ link_at at bytes.now) × LinkFits result }
{
    let number = u32::from_le_bytes([bytes[at], bytes[at + 1], bytes[at + 2], 0]);
    (number as usize).checked_sub(1)
}

// Writes a link of a record. To a slice, as nothing would be known of a table after it was lent as arrays to be
// written.
pub(crate) fn write_link(bytes: &mut [u8], at: usize, link: Option<usize>)
    requires { (at + link_size ≤ length bytes.old) × LinkFits link }
    ensures { LinkWritten at link bytes.old bytes.new }
{
    let number = link.map_or(0, |n| n as u32 + 1);
    bytes[at..at + LINK_BYTES].copy_from_slice(&number.to_le_bytes()[..LINK_BYTES]);
}

// Writes a record: the bytes of its registers, its link, its frame byte, and the record before it in its bucket.
pub(crate) fn write_record(
    bytes: &mut [u8],
    key: &[u8; KEY],
    link: Option<usize>,
    frame: u8,
    chain: Option<usize>,
)
    requires { (length bytes.old ≡ limits.record_bytes) × LinkFits link × LinkFits chain }
    ensures { Written key.now link frame chain bytes.old bytes.new }
{
    bytes[..KEY].copy_from_slice(key);
    write_link(&mut *bytes, LINK, link);
    bytes[FRAME] = frame;
    write_link(bytes, CHAIN, chain);
}
