// The words of a text: a cursor that moves forward over its bytes, and passes that judge any text.
#![tactic(auto)]

mod bytes;
mod classic;
mod de_bruijn;
mod judging;
pub mod text;

ghost use Rattle.std.specs.Prelude.{◌≡◌, ◌+◌, ◌≤◌, ◌<◌, length};
ghost use Rattle.calculus.specs.Reading.{next};
ghost use Rattle.term.specs.Notations.{notation_of};
ghost use Rattle.words.specs.Places.{Placed, remains, past_char};
ghost use Rattle.words.specs.Runs.{test_of, Over};
ghost use Rattle.words.specs.Steps.{taken, Last, Tells};
ghost use Rattle.words.specs.Judging.{Judges};

use bytes::{Run, SIGN_FIRST, may_hold};
use calculus::MOST_TEXT;
use judging::{scan_domain, scan_words};
use term::{Notation, Refusal};
use text::Text;

// A reading place: the bytes and the characters before it. Two numbers, passed in registers.
// The text stays beside it (`Placed` says that they belong together): each place handed on would carry it, no plainer.
#[derive(Clone, Copy, Debug, PartialEq, Eq)]
pub struct Cursor {
    pub at: usize,
    pub chars: usize,
}

// A name is a place in the text: its bytes stand from one offset up to another.
// No slice: no plainer, since the parser keeps the ends in half the memory.
#[derive(Clone, Copy, Debug, PartialEq, Eq)]
pub struct Name {
    pub from: usize,
    pub to: usize,
}

// A word, the end of the text, or a character that is invalid.
// No Option or Result: at each of the three a place is handed on.
#[derive(Clone, Copy, Debug, PartialEq, Eq)]
pub enum Word {
    End,
    Binder(Name),
    Left,
    Right,
    Number(u64),
    Named(Name),
    Invalid,
}

// A word and the place after it, or the place of what is invalid.
#[derive(Clone, Copy, Debug, PartialEq, Eq)]
pub struct Step {
    pub word: Word,
    pub next: Cursor,
}

// The empty name, at an offset: De Bruijn's binders have it in the definitions too, so it is no Option.
pub(crate) fn unnamed(at: usize) -> Name
    ensures { (result.from ≡ at) × (result.to ≡ at) }
{
    Name { from: at, to: at }
}

impl Cursor {
    // The place after the character that stands here.
    pub(crate) fn past(self, text: Text) -> Cursor
        requires { Placed text.bytes.now self × (self.at < length text.bytes.now) }
        ensures { (result ≡ past_char text.entry.bytes.now self) × Placed text.entry.bytes.now result }
    {
        let at = self.at;
        if text.bytes[at] == SIGN_FIRST {
            Cursor {
                at: at + 2,
                chars: self.chars + 1,
            }
        } else {
            Cursor {
                at: at + 1,
                chars: self.chars + 1,
            }
        }
    }

    // The place after the run that begins here.
    pub(crate) fn over(self, text: Text, run: Run) -> Cursor
        requires { Placed text.bytes.now self }
        ensures { Over text.entry.bytes.now (test_of run) self result }
    {
        // no index is counted: a character takes one byte or two, which no iterator of bytes passes
        let mut here = self;
        while here.at < text.bytes.len() {
            let at = here.at;
            if !may_hold(run, text.bytes[at]) {
                return here;
            }
            here = here.past(text);
        }
        here
    }

    // The next word. The notation is data, no closure: each has its own `first_word` in the definitions.
    pub fn next(self, text: Text, notation: Notation) -> Step
        requires { Placed text.bytes.now self }
        ensures { Tells text.entry.bytes.now self
            (next (notation_of notation) (remains text.entry.bytes.now self.at)) result
            × (self.at + taken result.word ≤ result.next.at) × Last text.entry.bytes.now result }
    {
        let here = self.over(text, Run::White);
        match notation {
            Notation::DeBruijn => here.first_de_bruijn(text),
            Notation::Classic => here.first_classic(text),
        }
    }
}

// The text if it passes: TextTooLong, OutsideDomain, then InvalidCharacter.
#[tactic(auto, using(crate::proofs::Refusing::judging))]
pub fn judge<'a>(notation: Notation, bytes: &'a [u8]) -> Result<Text<'a>, Refusal>
    ensures { Judges (notation_of notation) bytes.now result }
{
    if MOST_TEXT < bytes.len() {
        return Err(Refusal::TextTooLong);
    }
    if let Some(offset) = scan_domain(bytes) {
        return Err(Refusal::OutsideDomain(offset));
    }
    scan_words(notation, Text { bytes })
}
