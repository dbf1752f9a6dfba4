// What is gathered of a rule, item by item.
ghost use Rattle.std.specs.Prelude.{[], ◌≡◌};
ghost use Rattle.rules.specs.Loading.{Items};
ghost use Rattle.rules.specs.Inner.Gathered.{largest_of, Gathers, Pushes};

use crate::check::RuleCounts;
use crate::item::{Item, row_of};
use ground::limits::MOST_ITEMS;
use ground::refusal::Refusal;

// What is gathered of the items read so far: their counts, the horizons of the values that wait for an operator, as
// many as the counts say, and the items in order, with true behind them. Both stand in arrays, as the library has no
// heap.
#[derive(Clone, Copy)]
pub(crate) struct Gathered {
    pub counts: RuleCounts,
    pub horizons: [u16; MOST_ITEMS],
    pub items: [Item; MOST_ITEMS],
}

// The largest of some horizons, 0 if there are none.
#[tactic(auto, using(crate::proofs::Largest::is_largest))]
fn largest(horizons: &[u16]) -> u16
    ensures { result ≡ largest_of horizons.now }
{
    horizons.iter().copied().max().unwrap_or(0)
}

impl Gathered {
    // No item is read yet.
    #[tactic(auto, using(crate::proofs::Gathering::gathers_none))]
    pub(crate) fn new() -> Gathered
        ensures { Gathers result [] }
    {
        Gathered {
            counts: RuleCounts::default(),
            horizons: [0; MOST_ITEMS],
            items: [Item::True; MOST_ITEMS],
        }
    }

    // Checks one item more, the one at a place, and keeps it unless it is refused: its value's horizon stands where its
    // operands' horizons stood.
    pub(crate) fn push(&mut self, item: Item, at: usize) -> Result<(), Refusal>
        requires { (is : Items) × Gathers self.old is }
        ensures { (is : Items) → Gathers self.old is → Pushes is item at result self.new }
    {
        let row = row_of(item);
        let counts = self.counts.check(at, row)?;
        let place = self.counts.items;
        let depth = self.counts.depth;
        let bottom = depth - row.operands;
        let horizon = largest(&self.horizons[bottom..depth]);
        self.horizons[bottom] = row.upper + horizon;
        self.items[place] = item;
        self.counts = counts;
        Ok(())
    }
}
