// Loading a rule: each item in turn is read, checked, and kept for the layers above. What it shares with loading code
// is the reader.
ghost use Rattle.std.specs.Prelude.{◌≡◌, ◌≤◌, length};
ghost use Rattle.rules.specs.Loading.{Items, stack_of, one_value, read_rule, loaded_of, rule_of};
ghost use Rattle.rules.specs.Loaded.{items_in, loaded_in};
ghost use Rattle.rules.specs.Inner.Gathered.{Gathers};

use crate::gather::Gathered;
use crate::item::{Item, item_of};
use ground::limits::MOST_ITEMS;
use ground::refusal::Refusal;
use reading::item::Table;
use reading::reader::Reader;

// What is told of a rule that is accepted: how many items it has, and its horizon.
#[derive(Clone, Copy, Debug, PartialEq, Eq)]
pub struct Loaded {
    pub items: usize,
    pub horizon: usize,
}

// A rule that is accepted: its items in order, with true behind them, how many they are, and its horizon. The library
// has no heap and rests on std alone, so that the items stand in an array.
#[derive(Clone, Copy, Debug, PartialEq, Eq)]
pub struct Rule {
    pub items: [Item; MOST_ITEMS],
    pub count: usize,
    pub horizon: usize,
}

impl Rule {
    // The items in order. A count beyond the array tells all of it.
    #[tactic(auto, unfolding(crate::specs::Loaded::items_in))]
    pub fn items(&self) -> &[Item]
        ensures { result.now ≡ items_in self.now self.now.count }
    {
        &self.items[..self.count.min(MOST_ITEMS)]
    }

    // What is told of the rule.
    #[tactic(auto, unfolding(crate::specs::Loaded::loaded_in))]
    pub fn loaded(&self) -> Loaded
        ensures { result ≡ loaded_in self.now }
    {
        Loaded {
            items: self.count,
            horizon: self.horizon,
        }
    }
}

// The end of a rule of so many bytes: its items make one value, or it is refused.
fn at_end(gathered: &Gathered, bytes: usize) -> Result<Rule, Refusal>
    requires { (is : Items) × Gathers gathered.now is }
    ensures { (is : Items) → Gathers gathered.now is → result ≡ rule_of (one_value bytes is (stack_of is)) }
{
    if gathered.counts.depth != 1 {
        return Err(Refusal::NotOneValue(bytes));
    }
    Ok(Rule {
        items: gathered.items,
        count: gathered.counts.items,
        horizon: usize::from(gathered.horizons[0]),
    })
}

// Loads a rule: what is kept of it, or the refusal.
pub fn decode(bytes: &[u8]) -> Result<Rule, Refusal>
    ensures { result ≡ rule_of (read_rule bytes.now) }
{
    if bytes.is_empty() {
        return Err(Refusal::Empty);
    }
    let mut gathered = Gathered::new();
    let mut reader = Reader::new(Table::Rule, bytes);
    while let Some(read) = reader.item()? {
        let item = item_of(read.code, read.first, read.first, read.second);
        gathered.push(item, reader.at)?;
        reader.pass(read);
    }
    at_end(&gathered, bytes.len())
}

// Loads a rule: how many items it has and its horizon, or the refusal.
pub fn load(bytes: &[u8]) -> Result<Loaded, Refusal>
    ensures { result ≡ loaded_of (read_rule bytes.now) }
{
    let rule = decode(bytes)?;
    Ok(rule.loaded())
}
