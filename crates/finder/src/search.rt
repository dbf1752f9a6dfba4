// The search: a rule's bytes, a table and a witness buffer in, an answer out.
ghost use Rattle.rules.specs.Loading.{read_rule};
ghost use Rattle.finder.specs.Inner.Explore.{CanExplore};
ghost use Rattle.finder.specs.Search.{SearchSays};
ghost use Rattle.finder.specs.Inner.Search.{CanShow, Showing, CanSearch, SearchedIn, AnswersBy};

use crate::explore::{Trial, explore};
use code::instruction::Instruction;
use emitter::prepare::prepare;
use ground::limits::RECORD;
use ground::refusal::Refusal;
use table::{clear, frame_at, link_at, room_of};

// What the search finds: the length of the clip that it shows, if one satisfies, and the number of states.
#[derive(Clone, Copy, Debug, PartialEq, Eq)]
pub struct Found {
    pub length: Option<usize>,
    pub states: usize,
}

// Writes the clip of a trial in frame order, along the links from its state, and answers its length. The walk goes
// along links and not over a slice, so it counts the frames by hand.
fn write_witness(table: &[u8], trial: Trial, witness: &mut [u8]) -> usize
    requires { CanShow table.now trial witness.old }
    ensures { Showing table.now trial witness.old witness.new result }
{
    witness[0] = trial.frame;
    let mut length = 1;
    let mut at = trial.state;
    while let Some(from) = link_at(table, at) {
        witness[length] = frame_at(table, at);
        length += 1;
        at = from;
    }
    length
}

// Searches by code that is loaded, in a table that is exactly its records and whose index is empty.
fn search_in(code: &[Instruction], table: &mut [u8], witness: &mut [u8]) -> Result<Found, Refusal>
    requires { CanExplore code.now table.old × CanSearch code.now witness.old }
    ensures { SearchedIn code.now table.old witness.old result witness.new }
{
    let end = explore(code, &mut *table)?;
    // A `map` would say nothing of what its closure writes.
    let length = match end.met {
        Some(trial) => Some(write_witness(&table[..], trial, witness)),
        None => None,
    };
    Ok(Found {
        length,
        states: end.states,
    })
}

// Searches by code that is loaded, in the records of a table that is made all zero first, which is an empty index, and
// is all zero again at the end.
fn search_code(code: &[Instruction], table: &mut [u8], witness: &mut [u8]) -> Result<Found, Refusal>
    requires { CanSearch code.now witness.old }
    ensures { AnswersBy code.now table.old witness.old result table.new witness.new }
{
    let size = room_of(&table[..]) * RECORD;
    clear(&mut *table);
    let found = search_in(code, &mut table[0..size], witness);
    clear(table);
    found
}

// Searches for a clip that satisfies a rule: shows the first one, in the witness buffer from its first byte on, or says
// that there is none. The table is all zero then, and after refusal 15; a refusal of the rule, then 14, changes
// nothing.
pub fn search(rule: &[u8], table: &mut [u8], witness: &mut [u8]) -> Result<Found, Refusal>
    ensures { SearchSays (read_rule rule.now) table.old witness.old result table.new
        witness.new }
{
    let prepared = prepare(rule)?;
    if witness.len() <= prepared.loaded.horizon {
        return Err(Refusal::ShortWitness);
    }
    search_code(prepared.program.code(), table, witness)
}
