// The limits of document 01, each under one name. specs/Limits.antt has the same list for definitions and proofs, and
// the proof of `all` says that the two are one.
ghost use Rattle.std.specs.Prelude.{◌≡◌};
ghost use Rattle.ground.specs.Limits.{limits, bounds};

// A number of rules and code.
pub const MOST_NUMBER: u16 = 16_383;

// Rules: a flag, a bound, items, timed items, the sum of the lower bounds.
pub const MOST_FLAG: u16 = 7;

pub const MOST_BOUND: u16 = 255;

pub const MOST_ITEMS: usize = 64;

pub const MOST_TIMED: usize = 16;

pub const MOST_LOWER: usize = 256;

// Code: a width, a distance, instructions, REACH instructions (a counter each), the sum of the distances (a bit each).
pub const MOST_WIDTH: u16 = 255;

pub const MOST_DISTANCE: u16 = 255;

pub const MOST_INSTRUCTIONS: usize = 320;

pub const COUNTERS: usize = 16;

pub const DELAYS: usize = 256;

// Clips and the search: frames of a clip that is run, bytes of a record, records of a table.
pub const MOST_FRAMES: usize = 65_535;

pub const RECORD: usize = 80;

pub const MOST_RECORDS: usize = 65_536;

// What follows from them: the greatest horizon of a rule and the most bytes that it has, and bounds on the instructions
// and the bytes of its code. Buffers of so many bytes always suffice.
pub const MOST_HORIZON: usize = MOST_BOUND as usize * MOST_TIMED;

pub const MOST_RULE: usize = 2 * MOST_ITEMS + 3 * MOST_TIMED;

const MOST_EMITTED: usize = 3 * MOST_ITEMS + 2 * MOST_TIMED;

pub const MOST_CODE: usize = 5 * MOST_EMITTED + 2 * MOST_TIMED;

// All limits together.
#[derive(Clone, Copy, Debug, PartialEq, Eq)]
pub struct Limits {
    pub number: u16,
    pub flag: u16,
    pub bound: u16,
    pub items: usize,
    pub timed: usize,
    pub lower: usize,
    pub width: u16,
    pub distance: u16,
    pub instructions: usize,
    pub counters: usize,
    pub delays: usize,
    pub frames: usize,
    pub record_bytes: usize,
    pub records: usize,
}

// The constants above, as one value.
pub fn all() -> Limits
    ensures { result ≡ limits }
{
    Limits {
        number: MOST_NUMBER,
        flag: MOST_FLAG,
        bound: MOST_BOUND,
        items: MOST_ITEMS,
        timed: MOST_TIMED,
        lower: MOST_LOWER,
        width: MOST_WIDTH,
        distance: MOST_DISTANCE,
        instructions: MOST_INSTRUCTIONS,
        counters: COUNTERS,
        delays: DELAYS,
        frames: MOST_FRAMES,
        record_bytes: RECORD,
        records: MOST_RECORDS,
    }
}

// The bounds together.
#[derive(Clone, Copy, Debug, PartialEq, Eq)]
pub struct Bounds {
    pub horizon: usize,
    pub rule: usize,
    pub code: usize,
}

// The bounds above, as one value.
pub fn all_bounds() -> Bounds
    ensures { result ≡ bounds }
{
    Bounds {
        horizon: MOST_HORIZON,
        rule: MOST_RULE,
        code: MOST_CODE,
    }
}
