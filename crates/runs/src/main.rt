// Answers each case of a stream for the sequencer or the emitter, one line for each: the proved side of the comparison
// with the independent second program, `second answer` of tests/second, which writes the same lines.
//
// Standard input, until it ends: a byte for the case's kind, and three times bytes, each with their length before them
// as four bytes, lowest first. The bytes of each kind, and what its line on standard output begins with:
//
//     `l`  load      code, nothing, nothing    `accepted INSTRUCTIONS`
//     `s`  step      code, frame, registers    `bit BIT`
//     `r`  run       code, clip, buffer        `done`
//     `e`  emit      rule, nothing, buffer     `length LENGTH`
//     `j`  verdicts  rule, clip, buffer        `done`, by a run of the rule's emitted code
//
// A refusal is `refused NUMBER PLACE` in place of that. Behind either, a step has ` counters COUNTERS delays DELAYS`
// with all registers after it, the delay bits as hex digits, the first bit highest, and a case with a buffer has
// ` [BUFFER]` with every byte after it, two hex digits each. A step's registers are two bytes for each counter, lowest
// first, and behind them a byte for each delay bit; a buffer's bytes are those before the call. Where bytes are longer
// than `MOST_BYTES`, the kind is another, or the stream ends inside a case, the line is `cut`, and it is the last.
#![tactic(auto)]

use code::load::load_code;
use emitter::emit::emit;
use ground::limits::{COUNTERS, DELAYS, MOST_CODE, MOST_FRAMES};
use ground::refusal::{Refusal, number, place};
use sequencer::registers::Registers;
use sequencer::run::run;
use std::fmt::{Display, Formatter};
use std::io::{ErrorKind, Read, Write};
use std::{array, fmt, io};

// The most bytes that are read at once: twice a clip that is a frame too long.
const MOST_BYTES: usize = 2 * (MOST_FRAMES + 1);

// The bytes of a step's counters, two for each. The delay bits stand behind them.
const COUNTER_BYTES: usize = 2 * COUNTERS;

// The bytes, the bits and the hex digits of a word that is written at once.
const WORD_BYTES: usize = 8;

const WORD_BITS: usize = 8 * WORD_BYTES;

const WORD_DIGITS: usize = 2 * WORD_BYTES;

// Why a case has no answer: the stream has no whole case, or cannot be read or written.
#[derive(Drop)]
enum Stop {
    Cut,
    Stream(io::Error),
}

impl From<io::Error> for Stop {
    // A stream that cannot be read or written.
    fn from(error: io::Error) -> Stop {
        Stop::Stream(error)
    }
}

// What a case is answered where nothing is refused.
#[derive(Clone, Copy)]
enum Told {
    Accepted(usize),
    Bit(bool),
    Done,
    Length(usize),
}

// What a case is answered, or why it is refused, as text.
#[derive(Clone, Copy)]
struct Answer(Result<Told, Refusal>);

impl Display for Answer {
    // Its word and its number, or the refusal's number and place.
    fn fmt<W: fmt::Write>(&self, f: &mut Formatter<W>) -> fmt::Result {
        match self.0 {
            Ok(Told::Accepted(instructions)) => write!(f, "accepted {instructions}"),
            Ok(Told::Bit(bit)) => write!(f, "bit {}", u8::from(bit)),
            Ok(Told::Done) => f.write_str("done"),
            Ok(Told::Length(length)) => write!(f, "length {length}"),
            Err(refusal) => write!(f, "refused {} {}", number(refusal), place(refusal)),
        }
    }
}

// All registers as text.
#[derive(Drop)]
struct Shown<'a>(&'a Registers);

impl Display for Shown<'_> {
    // The counters as numbers, and the delay bits as hex digits, a word at a time, behind a space.
    fn fmt<W: fmt::Write>(&self, f: &mut Formatter<W>) -> fmt::Result {
        f.write_str(" counters")?;
        for counter in &self.0.counters {
            write!(f, " {counter}")?;
        }
        f.write_str(" delays ")?;
        for bits in self.0.delays.chunks(WORD_BITS) {
            let word = bits
                .iter()
                .fold(0, |word: u64, bit| (word << 1) | u64::from(*bit));
            write!(f, "{word:0WORD_DIGITS$x}")?;
        }
        Ok(())
    }
}

// Bytes as text.
#[derive(Drop)]
struct Hex<'a>(&'a [u8]);

impl Display for Hex<'_> {
    // Two digits for each byte: those of a word at once, and those of the bytes that are left at once too, as each
    // number is a write, with no buffer between.
    fn fmt<W: fmt::Write>(&self, f: &mut Formatter<W>) -> fmt::Result {
        let (words, rest) = self.0.as_chunks::<WORD_BYTES>();
        for word in words {
            write!(f, "{:0WORD_DIGITS$x}", u64::from_be_bytes(*word))?;
        }
        if rest.is_empty() {
            return Ok(());
        }
        let digits = 2 * rest.len();
        let word = rest
            .iter()
            .fold(0, |word: u64, byte| (word << 8) | u64::from(*byte));
        write!(f, "{word:0digits$x}")
    }
}

// The registers that bytes say: two bytes for each counter, and a byte for each delay bit behind them. A byte that is
// not there is 0.
fn lent_registers(bytes: &[u8]) -> Registers {
    let byte_at = |at: usize| bytes.get(at).copied().unwrap_or(0);
    Registers {
        counters: array::from_fn(|n| u16::from_le_bytes([byte_at(2 * n), byte_at(2 * n + 1)])),
        delays: array::from_fn(|n| byte_at(COUNTER_BYTES + n) != 0),
    }
}

// Runs a rule's code over a clip. A rule that is refused has no code, and its refusal is the answer.
fn verdicts(rule: &[u8], clip: &[u8], buffer: &mut [u8]) -> Result<(), Refusal> {
    let mut code = [0; MOST_CODE];
    let length = emit(rule, &mut code)?;
    run(&code[..length], clip, buffer)
}

// Fills a buffer from the stream, which is cut where it ends before that.
fn fill<R: Read>(input: &mut R, buffer: &mut [u8]) -> Result<(), Stop> {
    match input.read_exact(buffer) {
        Err(error) if error.kind() == ErrorKind::UnexpectedEof => Err(Stop::Cut),
        read => Ok(read?),
    }
}

// Reads a length and so many bytes to the buffer's start, and answers these.
fn read_bytes<'a, R: Read>(input: &mut R, buffer: &'a mut [u8]) -> Result<&'a mut [u8], Stop> {
    let mut length = [0; 4];
    fill(input, &mut length)?;
    let bytes = buffer
        .get_mut(..u32::from_le_bytes(length) as usize)
        .ok_or(Stop::Cut)?;
    fill(input, bytes)?;
    Ok(bytes)
}

// A case: what is asked, and the bytes that it is asked of.
#[derive(Drop)]
enum Case<'a> {
    Load {
        code: &'a [u8],
    },
    Step {
        code: &'a [u8],
        frame: &'a [u8],
        registers: &'a [u8],
    },
    Run {
        code: &'a [u8],
        clip: &'a [u8],
        buffer: &'a mut [u8],
    },
    Emit {
        rule: &'a [u8],
        buffer: &'a mut [u8],
    },
    Verdicts {
        rule: &'a [u8],
        clip: &'a [u8],
        buffer: &'a mut [u8],
    },
}

impl Case<'_> {
    // Answers the case in a line.
    fn answer<W: Write>(self, out: &mut W) -> io::Result<()> {
        match self {
            Case::Load { code } => {
                let loaded = load_code(code).map(Told::Accepted);
                writeln!(out, "{}", Answer(loaded))
            }
            Case::Step {
                code,
                frame,
                registers,
            } => {
                let frame = frame.first().copied().unwrap_or(0);
                let stepped = lent_registers(registers).step(code, frame);
                let output = stepped.output.map(Told::Bit);
                writeln!(out, "{}{}", Answer(output), Shown(&stepped.registers))
            }
            Case::Run { code, clip, buffer } => {
                let ran = run(code, clip, buffer).map(|()| Told::Done);
                writeln!(out, "{} [{}]", Answer(ran), Hex(buffer))
            }
            Case::Emit { rule, buffer } => {
                let emitted = emit(rule, buffer).map(Told::Length);
                writeln!(out, "{} [{}]", Answer(emitted), Hex(buffer))
            }
            Case::Verdicts { rule, clip, buffer } => {
                let ran = verdicts(rule, clip, buffer).map(|()| Told::Done);
                writeln!(out, "{} [{}]", Answer(ran), Hex(buffer))
            }
        }
    }
}

// The buffers that the bytes of a case are read to. They are arrays, as the program has no heap.
#[derive(Drop)]
struct Buffers {
    first: [u8; MOST_BYTES],
    second: [u8; MOST_BYTES],
    third: [u8; MOST_BYTES],
}

impl Buffers {
    // Reads the next case, or none where the stream ends before it.
    fn read_case<R: Read>(&mut self, input: &mut R) -> Result<Option<Case<'_>>, Stop> {
        let Some(kind) = input.by_ref().bytes().next() else {
            return Ok(None);
        };
        let kind = kind?;
        let Buffers {
            first,
            second,
            third,
        } = self;
        // All bytes are read before the kind is judged, as a stream may fail among them.
        let first = read_bytes(input, first)?;
        let second = read_bytes(input, second)?;
        let third = read_bytes(input, third)?;
        match kind {
            b'l' => Ok(Some(Case::Load { code: first })),
            b's' => Ok(Some(Case::Step {
                code: first,
                frame: second,
                registers: third,
            })),
            b'r' => Ok(Some(Case::Run {
                code: first,
                clip: second,
                buffer: third,
            })),
            b'e' => Ok(Some(Case::Emit {
                rule: first,
                buffer: third,
            })),
            b'j' => Ok(Some(Case::Verdicts {
                rule: first,
                clip: second,
                buffer: third,
            })),
            _ => Err(Stop::Cut),
        }
    }

    // Answers each case of the stream. A proved loop has to end, and nothing says that the stream does: the turns are
    // counted up to a number that no run comes to.
    fn answer_all<R: Read, W: Write>(&mut self, input: &mut R, out: &mut W) -> Result<(), Stop> {
        for _ in 0..u64::MAX {
            match self.read_case(input)? {
                Some(case) => case.answer(out)?,
                None => return Ok(()),
            }
        }
        Ok(())
    }
}

// Answers the cases of standard input on standard output.
fn main(rt: HostRuntime) -> io::Result<()> {
    let mut buffers = Buffers {
        first: [0; MOST_BYTES],
        second: [0; MOST_BYTES],
        third: [0; MOST_BYTES],
    };
    let mut out = io::writer(&rt);
    match buffers.answer_all(&mut rt.reader(), &mut out) {
        Ok(()) => Ok(()),
        Err(Stop::Cut) => writeln!(out, "cut"),
        Err(Stop::Stream(error)) => Err(error),
    }
}
