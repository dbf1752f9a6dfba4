// New rules: negate, both, either and next put an operator behind one rule or two. The new bytes are joined in a
// workspace of their own and checked there, so nothing is written unless all is well. Each maker is a call with its
// operator, under the name that C has for it.
ghost use Rattle.std.specs.Prelude.{◌≡◌, ◌++◌, ◌+◌, ◌≤◌, length};
ghost use Rattle.rules.specs.Loading.{read_rule};
ghost use Rattle.makers.specs.Making.{negation, conjunction, disjunction, next_frame, most_operator, most_new};
ghost use Rattle.makers.specs.Making.{which_of, or_else, MakesNew, MakesOne, MakesTwo};

use ground::buffer::write_bytes;
use ground::limits::MOST_RULE;
use ground::refusal::Refusal;
use rules::load::load;

// Which of the three is refused.
#[derive(Clone, Copy, Debug, PartialEq, Eq)]
pub enum Which {
    First,
    Second,
    New,
}

// Why no rule is made: which of the three is refused, and how.
#[derive(Clone, Copy, Debug, PartialEq, Eq)]
pub struct Refused {
    pub which: Which,
    pub refusal: Refusal,
}

// The longest operator: what next appends.
const MOST_OPERATOR: usize = 3;

// Room for two rules and an operator: an array, as the library has no heap.
const MOST_NEW: usize = 2 * MOST_RULE + MOST_OPERATOR;

// Which of the three, numbered in document 01's order: 1 first, 2 second, 3 the new bytes. By a match, as the numbers
// are the document's and not the enum's own.
pub fn which_number(which: Which) -> u8
    ensures { result ≡ which_of which }
{
    match which {
        Which::First => 1,
        Which::Second => 2,
        Which::New => 3,
    }
}

// Checks one of the three as a rule.
fn check(which: Which, rule: &[u8]) -> Result<(), Refused>
    ensures { result ≡ or_else which (read_rule rule.now) (Ok tt) }
{
    load(rule).map_err(|refusal| Refused { which, refusal })?;
    Ok(())
}

// Checks the new bytes as a rule, then the room for them, and writes them.
fn conclude(new: &[u8], out: &mut [u8]) -> Result<usize, Refused>
    ensures { MakesNew new.now out.old result out.new }
{
    check(Which::New, new)?;
    if out.len() < new.len() {
        return Err(Refused {
            which: Which::New,
            refusal: Refusal::ShortOutput,
        });
    }
    Ok(write_bytes(out, 0, new))
}

// Joins the bytes of two rules and of an operator, and concludes.
fn join(first: &[u8], second: &[u8], operator: &[u8], out: &mut [u8]) -> Result<usize, Refused>
    requires { length first.now + (length second.now + length operator.now) ≤ most_new }
    ensures { MakesNew (first.now ++ (second.now ++ operator.now)) out.old result out.new }
{
    let mut work = [0; MOST_NEW];
    let middle = write_bytes(&mut work, 0, first);
    let end = write_bytes(&mut work, middle, second);
    let length = write_bytes(&mut work, end, operator);
    conclude(&work[..length], out)
}

// Makes a rule of one.
fn one(rule: &[u8], operator: &[u8], out: &mut [u8]) -> Result<usize, Refused>
    requires { length operator.now ≤ most_operator }
    ensures { MakesOne operator.now rule.now out.old result out.new }
{
    check(Which::First, rule)?;
    join(rule, &[], operator, out)
}

// Makes a rule of two.
fn two(first: &[u8], second: &[u8], operator: &[u8], out: &mut [u8]) -> Result<usize, Refused>
    requires { length operator.now ≤ most_operator }
    ensures { MakesTwo operator.now first.now second.now out.old result out.new }
{
    check(Which::First, first)?;
    check(Which::Second, second)?;
    join(first, second, operator, out)
}

// Makes the rule that holds exactly where a rule does not.
pub fn negate(rule: &[u8], out: &mut [u8]) -> Result<usize, Refused>
    ensures { MakesOne negation rule.now out.old result out.new }
{
    one(rule, &[0x20], out)
}

// Makes the rule that holds where a rule does from the next frame on, and where there is no next frame.
pub fn next(rule: &[u8], out: &mut [u8]) -> Result<usize, Refused>
    ensures { MakesOne next_frame rule.now out.old result out.new }
{
    one(rule, &[0x33, 0x01, 0x01], out)
}

// Makes the rule that holds where both of two rules do.
pub fn both(first: &[u8], second: &[u8], out: &mut [u8]) -> Result<usize, Refused>
    ensures { MakesTwo conjunction first.now second.now out.old result out.new }
{
    two(first, second, &[0x21], out)
}

// Makes the rule that holds where one of two rules does, or both.
pub fn either(first: &[u8], second: &[u8], out: &mut [u8]) -> Result<usize, Refused>
    ensures { MakesTwo disjunction first.now second.now out.old result out.new }
{
    two(first, second, &[0x22], out)
}
