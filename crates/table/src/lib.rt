// The table: records one behind the other, each known by its number, and found by the index. It knows registers and
// bytes, and no search.
#![tactic(auto)]

mod index;
mod record;

ghost use Rattle.std.specs.Prelude.{◌≡◌, ℕ, ◌<◌, length, replicate};
ghost use Rattle.table.specs.Room.{room_of};
ghost use Rattle.table.specs.Inner.Records.{RegistersIn, link_in, frame_in, record_at, room_in};
ghost use Rattle.table.specs.Inner.Tables.{Filled, Looks, CanStore, Stores};

use crate::index::bucket_of;
use crate::record::{
    CHAIN, FRAME, HEAD, LINK, key_of, read_link, registers_of, same_key, write_link, write_record,
};
use ground::limits::{MOST_RECORDS, RECORD};
use sequencer::registers::Registers;

// How many records a table has.
pub fn room_of(table: &[u8]) -> usize
    ensures { result ≡ room_of table.now }
{
    (table.len() / RECORD).min(MOST_RECORDS)
}

// A record of a table, by its number. That there is such a record is asked of each caller, as it ties a number to a
// table: a struct round the table would ask it too.
fn record_at(table: &[u8], n: usize) -> &[u8; RECORD]
    requires { n < room_in table.now }
    ensures { result.now ≡ record_at table.now n }
{
    &table.as_chunks().0[n]
}

// The registers that a record keeps.
pub fn registers_at(table: &[u8], n: usize) -> Registers
    requires { n < room_in table.now }
    ensures { RegistersIn (record_at table.now n) result }
{
    registers_of(record_at(table, n))
}

// The number of the record that a record came from, if any.
pub fn link_at(table: &[u8], n: usize) -> Option<usize>
    requires { n < room_in table.now }
    ensures { result ≡ link_in (record_at table.now n) }
{
    read_link(record_at(table, n), LINK)
}

// The frame byte of a record.
pub fn frame_at(table: &[u8], n: usize) -> u8
    requires { n < room_in table.now }
    ensures { result ≡ frame_in (record_at table.now n) }
{
    record_at(table, n)[FRAME]
}

// Looks registers up among the records that are in the index, down the chain of their bucket: the number of the last
// record that keeps them, if any does.
pub fn find(table: &[u8], registers: Registers) -> Option<usize>
    requires { (stored : ℕ) × Filled table.now stored }
    ensures { (stored : ℕ) → Filled table.now stored → Looks table.now stored registers result }
{
    let key = key_of(registers);
    let bucket = bucket_of(&key, table.len() / RECORD);
    let mut next = read_link(record_at(table, bucket), HEAD);
    while let Some(n) = next {
        let bytes = record_at(table, n);
        if same_key(bytes, &key) {
            return Some(n);
        }
        next = read_link(bytes, CHAIN);
    }
    None
}

// Stores a state as record n, with the number of the record that it came from, if any, and puts it in front of the
// chain of its bucket.
pub fn store(table: &mut [u8], n: usize, registers: Registers, from: Option<usize>, frame: u8)
    requires { CanStore table.old n from }
    ensures { Stores table.old table.new n registers from frame }
{
    let key = key_of(registers);
    let bucket = bucket_of(&key, table.len() / RECORD);
    let head = read_link(record_at(&table[..], bucket), HEAD);
    let base = n * RECORD;
    write_record(&mut table[base..base + RECORD], &key, from, frame, head);
    let first = bucket * RECORD;
    write_link(&mut table[first..first + RECORD], HEAD, Some(n));
}

// Makes every byte 0.
pub fn clear(table: &mut [u8])
    ensures { table.new ≡ replicate (length table.old) 0 }
{
    table.fill(0);
}
