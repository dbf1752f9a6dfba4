// The check of an item of a rule: 5, 6, 7, 8 in turn. Code counts and refuses by other numbers, so that what is counted
// is a struct of its own there.
ghost use Rattle.std.specs.Prelude.{◌≡◌, ◌≤◌};
ghost use Rattle.rules.specs.Inner.Good.{RuleWithin};
ghost use Rattle.rules.specs.Loading.{bad_window, rule_too_large, rule_counted, check_item};

use crate::item::ItemRow;
use ground::limits::{MOST_BOUND, MOST_FLAG, MOST_ITEMS, MOST_LOWER, MOST_TIMED};
use ground::refusal::Refusal;

// What is counted on the way: items, timed items, the sum of the lower bounds, values that wait for an operator.
#[derive(Clone, Copy, Debug, Default, PartialEq, Eq)]
pub(crate) struct RuleCounts {
    pub items: usize,
    pub timed: usize,
    pub lower: usize,
    pub depth: usize,
}

// Whether a window is none: a > b or b > 255.
#[tactic(auto, unfolding(crate::specs::Loading::bad_window))]
fn bad_window(lower: u16, upper: u16) -> bool
    ensures { result ≡ bad_window lower upper }
{
    upper < lower || MOST_BOUND < upper
}

impl RuleCounts {
    // Whether the rule is too large: 65th item, 17th timed item, or lower bounds above 256.
    #[tactic(auto, unfolding(crate::specs::Loading::rule_too_large))]
    fn too_large(self) -> bool
        ensures { result ≡ rule_too_large self }
    {
        MOST_ITEMS < self.items || MOST_TIMED < self.timed || MOST_LOWER < self.lower
    }

    // The counts with one item more.
    #[tactic(auto, unfolding(crate::specs::Loading::rule_counted))]
    fn counted(self, row: ItemRow) -> RuleCounts
        requires rule_within { RuleWithin self }
        requires operands_le_depth { row.operands ≤ self.depth }
        ensures { result ≡ rule_counted self row }
    {
        RuleCounts {
            items: self.items + 1,
            timed: self.timed + usize::from(row.timed),
            lower: self.lower + usize::from(row.lower),
            depth: self.depth - row.operands + 1,
        }
    }

    // Checks the item at a place, behind the items that are counted: the counts with it, or its refusal.
    #[tactic(auto, unfolding(crate::specs::Loading::check_item))]
    pub(crate) fn check(self, at: usize, row: ItemRow) -> Result<RuleCounts, Refusal>
        requires { RuleWithin self }
        ensures { result ≡ check_item self at row }
    {
        if MOST_FLAG < row.flag {
            return Err(Refusal::FlagTooLarge(at));
        }
        if bad_window(row.lower, row.upper) {
            return Err(Refusal::BadWindow(at));
        }
        if self.depth < row.operands {
            return Err(Refusal::TooFewOperands(at));
        }
        let next = self.counted(row);
        if next.too_large() {
            return Err(Refusal::RuleTooLarge(at));
        }
        Ok(next)
    }
}
