// Refusals: document 01's numbers 1 to 16 as one type, each with the place that 01 gives it.
ghost use Rattle.std.specs.Prelude.{◌≡◌};
ghost use Rattle.ground.specs.Refusals.{number_of, place_of};

// A refusal. It holds its place where 01 names one; any other has place 0.
#[derive(Clone, Copy, Debug, PartialEq, Eq)]
pub enum Refusal {
    Empty,
    UnknownCode(usize),
    CutShort(usize),
    NotShortest(usize),
    FlagTooLarge(usize),
    BadWindow(usize),
    TooFewOperands(usize),
    RuleTooLarge(usize),
    NotOneValue(usize),
    NotEarlier(usize),
    BadWidth(usize),
    CodeTooLarge(usize),
    BadClip,
    ShortWitness,
    NoRoom,
    ShortOutput,
}

// Document 01's number for a refusal. By this name and by no `From`: a refusal has two numbers, and its place is asked
// for too.
pub fn number(refusal: Refusal) -> u8
    ensures { result ≡ number_of refusal }
{
    match refusal {
        Refusal::Empty => 1,
        Refusal::UnknownCode(_) => 2,
        Refusal::CutShort(_) => 3,
        Refusal::NotShortest(_) => 4,
        Refusal::FlagTooLarge(_) => 5,
        Refusal::BadWindow(_) => 6,
        Refusal::TooFewOperands(_) => 7,
        Refusal::RuleTooLarge(_) => 8,
        Refusal::NotOneValue(_) => 9,
        Refusal::NotEarlier(_) => 10,
        Refusal::BadWidth(_) => 11,
        Refusal::CodeTooLarge(_) => 12,
        Refusal::BadClip => 13,
        Refusal::ShortWitness => 14,
        Refusal::NoRoom => 15,
        Refusal::ShortOutput => 16,
    }
}

// The place of a refusal: the offset of the item at fault, or the length for "not exactly one value".
pub fn place(refusal: Refusal) -> usize
    ensures { result ≡ place_of refusal }
{
    match refusal {
        Refusal::UnknownCode(at)
        | Refusal::CutShort(at)
        | Refusal::NotShortest(at)
        | Refusal::FlagTooLarge(at)
        | Refusal::BadWindow(at)
        | Refusal::TooFewOperands(at)
        | Refusal::RuleTooLarge(at)
        | Refusal::NotOneValue(at)
        | Refusal::NotEarlier(at)
        | Refusal::BadWidth(at)
        | Refusal::CodeTooLarge(at) => at,
        Refusal::Empty
        | Refusal::BadClip
        | Refusal::ShortWitness
        | Refusal::NoRoom
        | Refusal::ShortOutput => 0,
    }
}
