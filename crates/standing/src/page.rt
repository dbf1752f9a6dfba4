// A page of text: a buffer that the lines of a standing are written to, piece by piece.
ghost use Rattle.std.specs.Prelude.{IfOk, ◌++◌, ◌≤◌, length};
ghost use Rattle.text.specs.Digits.{decimal, hex_byte};
ghost use Rattle.standing.specs.Inner.Pages.{PageRoom, Writes};
ghost use Rattle.standing.specs.Inner.Within.{ClipWithin};
ghost use Rattle.standing.specs.Inner.Told.{told_text};
ghost use Rattle.standing.specs.Text.{frames_text, head_text, met_text, none_text, refused_text};

use crate::standing::Standing;
use ground::buffer::write_bytes;
use ground::refusal::{Refusal, number, place};
use rules::load::Loaded;
use text::digits;

// A buffer, and the place behind the text that stands in it. Room on it is a clause of the methods and no invariant, as
// each method asks it for what that method writes.
#[derive(Drop)]
pub(crate) struct Page<'a> {
    pub text: &'a mut [u8],
    pub at: usize,
}

impl Page<'_> {
    // Writes a word.
    fn word(&mut self, word: &[u8])
        ensures { Writes self.old word.now self.new }
    {
        self.at = write_bytes(self.text, self.at, word);
    }

    // Writes a word and a number behind it.
    fn count(&mut self, word: &[u8], n: usize)
        ensures { Writes self.old (word.now ++ decimal n) self.new }
    {
        self.at = digits::write_count(self.text, self.at, word, n);
    }

    // Writes a frame.
    fn frame(&mut self, frame: u8)
        ensures { Writes self.old (hex_byte frame) self.new }
    {
        self.at = digits::write_hex(self.text, self.at, frame);
    }

    // Writes a line of frames, with spaces between them.
    fn frames(&mut self, frames: &[u8])
        requires { (1 ≤ length frames.now) × PageRoom self.old (frames_text frames.now) }
        ensures { Writes self.old (frames_text frames.now) self.new }
    {
        self.frame(frames[0]);
        for frame in &frames[1..] {
            self.word(b" ");
            self.frame(*frame);
        }
        self.word(b"\n");
    }

    // Writes the lines on the rule.
    fn head(&mut self, bytes: usize, loaded: Loaded)
        requires { PageRoom self.old (head_text bytes loaded.items loaded.horizon) }
        ensures { Writes self.old (head_text bytes loaded.items loaded.horizon) self.new }
    {
        self.count(b"rule ", bytes);
        self.count(b" bytes ", loaded.items);
        self.count(b" items\nhorizon ", loaded.horizon);
        self.word(b"\n");
    }

    // Writes the lines on a clip that meets it.
    fn met(&mut self, states: usize, frames: &[u8])
        requires { (1 ≤ length frames.now) × PageRoom self.old (met_text states frames.now) }
        ensures { Writes self.old (met_text states frames.now) self.new }
    {
        self.count(b"met ", frames.len());
        self.count(b" frames ", states);
        self.word(b" states\n");
        self.frames(frames);
    }

    // Writes the line that there is none.
    fn none(&mut self, states: usize)
        requires { PageRoom self.old (none_text states) }
        ensures { Writes self.old (none_text states) self.new }
    {
        self.count(b"none ", states);
        self.word(b" states\n");
    }

    // Writes the line of a refusal.
    fn refused(&mut self, refusal: Refusal)
        requires { PageRoom self.old (refused_text refusal) }
        ensures { Writes self.old (refused_text refusal) self.new }
    {
        self.count(b"refused ", usize::from(number(refusal)));
        self.count(b" at ", place(refusal));
        self.word(b"\n");
    }

    // Writes what is told of a rule of so many bytes, or its refusal.
    pub(crate) fn write(
        &mut self,
        bytes: usize,
        standing: Result<Standing, Refusal>,
        witness: &[u8],
    )
        requires { IfOk standing (λ s. ClipWithin s.found witness.now)
            × PageRoom self.old (told_text bytes standing witness.now) }
        ensures { Writes self.old (told_text bytes standing witness.now) self.new }
    {
        match standing {
            Ok(Standing { loaded, found }) => {
                self.head(bytes, loaded);
                match found.length {
                    Some(length) => self.met(found.states, &witness[..length]),
                    None => self.none(found.states),
                }
            }
            Err(refusal) => self.refused(refusal),
        }
    }
}
