// The standing of a rule as text: the rule is loaded and searched, and then the whole text is written.
ghost use Rattle.std.specs.Prelude.{◌≤◌, length};
ghost use Rattle.standing.specs.Inner.Told.{Told};
ghost use Rattle.standing.specs.Standing.{most_text, Prints};

use crate::page::Page;
use finder::search::{Found, search};
use ground::limits::MOST_HORIZON;
use ground::refusal::Refusal;
use rules::load::{Loaded, load};

// A bound on the text: three bytes for each frame of the longest clip, and a hundred for the rest.
pub const MOST_TEXT: usize = 3 * (MOST_HORIZON + 1) + 100;

// What is told of a rule: what loading tells, and what the search finds.
#[derive(Clone, Copy)]
pub(crate) struct Standing {
    pub loaded: Loaded,
    pub found: Found,
}

// Loads and searches a rule.
fn standing_of(rule: &[u8], table: &mut [u8], witness: &mut [u8]) -> Result<Standing, Refusal>
    ensures { Told rule.now table.old witness.old result table.new witness.new }
{
    let loaded = load(rule)?;
    let found = search(rule, table, witness)?;
    Ok(Standing { loaded, found })
}

// Loads and searches a rule, writes its standing from the text's first byte on, and answers the length of that.
pub(crate) fn write_standing(
    rule: &[u8],
    table: &mut [u8],
    witness: &mut [u8],
    text: &mut [u8],
) -> usize
    requires { most_text ≤ length text.old }
    ensures { Prints rule.now table.old witness.old text.old result
        table.new witness.new text.new }
{
    let standing = standing_of(rule, table, witness);
    let mut page = Page { text, at: 0 };
    page.write(rule.len(), standing, witness);
    page.at
}
