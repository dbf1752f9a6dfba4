// New rules of rules, for C.
ghost use Rattle.std.specs.Prelude.{◌≡◌};
ghost use Rattle.makers.specs.Making.{negation, next_frame, conjunction, disjunction};
ghost use Rattle.thistlecart.specs.Make.{made_word, OneRuleEntry, TwoRulesEntry};
ghost use Rattle.thistlecart.specs.Inner.Make.{MadeFits};

use crate::word::{BIT_8, BIT_40, refusal_word};
use makers::make::{Refused, both, either, negate, next, which_number};

// The word of what a maker answers.
fn made_word(made: Result<usize, Refused>) -> u64
    requires { MadeFits made }
    ensures { result ≡ made_word made }
{
    match made {
        Ok(length) => length as u64 * BIT_8,
        Err(Refused { which, refusal }) => refusal_word(refusal)
            + u64::from(which_number(which)) * BIT_40,
    }
}

// Makes the negation of a rule. The word has the new rule's length in bits 8 and up.
#[unsafe(no_mangle)]
pub extern "C" fn thistlecart_negate(rule: &[u8], out: &mut [u8]) -> u64
    ensures { OneRuleEntry negation rule.now out.old result out.new }
{
    made_word(negate(rule, out))
}

// Makes the rule that a rule holds from the next frame on, or that there is no next frame. The word has the new rule's
// length in bits 8 and up.
#[unsafe(no_mangle)]
pub extern "C" fn thistlecart_next(rule: &[u8], out: &mut [u8]) -> u64
    ensures { OneRuleEntry next_frame rule.now out.old result out.new }
{
    made_word(next(rule, out))
}

// Makes the rule that both of two hold. The word has the new rule's length in bits 8 and up.
#[unsafe(no_mangle)]
pub extern "C" fn thistlecart_both(first: &[u8], second: &[u8], out: &mut [u8]) -> u64
    ensures { TwoRulesEntry conjunction first.now second.now
        out.old result out.new }
{
    made_word(both(first, second, out))
}

// Makes the rule that one of two holds. The word has the new rule's length in bits 8 and up.
#[unsafe(no_mangle)]
pub extern "C" fn thistlecart_either(first: &[u8], second: &[u8], out: &mut [u8]) -> u64
    ensures { TwoRulesEntry disjunction first.now second.now
        out.old result out.new }
{
    made_word(either(first, second, out))
}
