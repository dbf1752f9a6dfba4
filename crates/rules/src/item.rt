// The ten items of rules.
ghost use Rattle.std.specs.Prelude.{◌≡◌};
ghost use Rattle.rules.specs.Items.{item_of, item_row, row_of_item};

// An item: operands stand before operators, and of two operands the left comes first.
#[derive(Clone, Copy, Debug, PartialEq, Eq)]
pub enum Item {
    True,
    False,
    Flag(u16),
    Not,
    And,
    Or,
    Until(u16, u16),
    Release(u16, u16),
    Eventually(u16, u16),
    Globally(u16, u16),
}

// What document 01 says of an item in numbers: its code byte, its operands, whether it is timed (1 or 0, as timed items
// are counted by adding them up), its flag, its bounds. What it lacks is 0.
#[derive(Clone, Copy, Debug, PartialEq, Eq)]
pub struct ItemRow {
    pub code: u8,
    pub operands: usize,
    pub timed: u16,
    pub flag: u16,
    pub lower: u16,
    pub upper: u16,
}

impl ItemRow {
    // The numbers of an item that has no flag and is not timed.
    fn plain(code: u8, operands: usize) -> ItemRow
        ensures { result ≡ item_row code operands 0 0 0 0 }
    {
        ItemRow {
            code,
            operands,
            timed: 0,
            flag: 0,
            lower: 0,
            upper: 0,
        }
    }

    // The numbers of a timed item.
    fn timed(code: u8, operands: usize, lower: u16, upper: u16) -> ItemRow
        ensures { result ≡ item_row code operands 1 0 lower upper }
    {
        ItemRow {
            timed: 1,
            lower,
            upper,
            ..ItemRow::plain(code, operands)
        }
    }
}

// The numbers of an item.
pub fn row_of(item: Item) -> ItemRow
    ensures { result ≡ row_of_item item }
{
    match item {
        Item::True => ItemRow::plain(0x10, 0),
        Item::False => ItemRow::plain(0x11, 0),
        Item::Flag(flag) => ItemRow {
            flag,
            ..ItemRow::plain(0x12, 0)
        },
        Item::Not => ItemRow::plain(0x20, 1),
        Item::And => ItemRow::plain(0x21, 2),
        Item::Or => ItemRow::plain(0x22, 2),
        Item::Until(lower, upper) => ItemRow::timed(0x30, 2, lower, upper),
        Item::Release(lower, upper) => ItemRow::timed(0x31, 2, lower, upper),
        Item::Eventually(lower, upper) => ItemRow::timed(0x32, 1, lower, upper),
        Item::Globally(lower, upper) => ItemRow::timed(0x33, 1, lower, upper),
    }
}

// The item of a code byte, with its flag and its bounds. The reader knows only these ten code bytes.
#[tactic(auto, unfolding(crate::specs::Items::item_of))]
pub fn item_of(code: u8, flag: u16, lower: u16, upper: u16) -> Item
    ensures { result ≡ item_of code flag lower upper }
{
    match code {
        0x10 => Item::True,
        0x11 => Item::False,
        0x12 => Item::Flag(flag),
        0x20 => Item::Not,
        0x21 => Item::And,
        0x22 => Item::Or,
        0x30 => Item::Until(lower, upper),
        0x31 => Item::Release(lower, upper),
        0x32 => Item::Eventually(lower, upper),
        _ => Item::Globally(lower, upper),
    }
}
