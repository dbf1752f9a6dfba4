// The one reader that walks rules and code alike and always knows its place: a loader keeps it, and its place is that
// of the item that is being checked. What stands there is told by `read_item`, which has plain parameters; the work is
// done by `item_at`, on the bytes and the place.
ghost use Rattle.std.specs.Prelude.{◌≡◌};
ghost use Rattle.reading.specs.Items.{item_at};

use crate::item::{Read, Table, item_at};
use ground::refusal::Refusal;

// The lent bytes of a rule or of code, the table of their code bytes, and a place in them.
#[derive(Clone, Copy, Debug, PartialEq, Eq)]
pub struct Reader<'a> {
    pub table: Table,
    pub bytes: &'a [u8],
    pub at: usize,
}

impl<'a> Reader<'a> {
    // A reader over the bytes, at their start.
    pub fn new(table: Table, bytes: &'a [u8]) -> Reader<'a>
        ensures { result ≡ record { table = table; bytes = bytes.entry; at = 0 } }
    {
        Reader {
            table,
            bytes,
            at: 0,
        }
    }

    // What stands at the reader's place: an item, the end, or a refusal.
    #[inline(always)]
    pub fn item(&self) -> Result<Option<Read>, Refusal>
        ensures { result ≡ item_at self.now.table self.now.bytes.now self.now.at }
    {
        read_item(self.table, self.bytes, self.at)
    }

    // Moves the reader past an item, to the place behind it.
    pub fn pass(&mut self, read: Read)
        ensures { self.new ≡ record { table = self.old.table; bytes = self.old.bytes; at = read.next } }
    {
        self.at = read.next;
    }
}

// What stands at a place, which may be the end or lie behind it.
#[inline(always)]
pub fn read_item(table: Table, bytes: &[u8], at: usize) -> Result<Option<Read>, Refusal>
    ensures { result ≡ item_at table bytes.now at }
{
    item_at(table, bytes, at)
}
