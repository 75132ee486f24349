// The next word in De Bruijn's notation.
ghost use Rattle.std.specs.Prelude.{◌≡◌, ◌+◌, ◌≤◌, ◌<◌, length, get_or};
ghost use Rattle.calculus.specs.DeBruijn.{first_word};
ghost use Rattle.words.specs.Places.{Placed, remains};
ghost use Rattle.words.specs.Steps.{taken, Last, Tells};

use crate::bytes::{SIGN_FIRST, hex_digit};
use crate::text::Text;
use crate::{Cursor, Step, Word, unnamed};

// An index above it has no room for a digit more: 2^60 - 1.
const MOST_TO_LENGTHEN: u64 = 1152921504606846975;

impl Cursor {
    // The index in the brackets that open here.
    fn bracketed(self, text: Text) -> Step
        requires placed { Placed text.bytes.now self × (self.at < length text.bytes.now) }
        requires at_value { get_or text.bytes.now self.at 0 ≡ 91 }
        ensures { Tells text.entry.bytes.now self (first_word (remains text.entry.bytes.now self.at)) result
            × (self.at + taken result.word ≤ result.next.at) × Last text.entry.bytes.now result }
    {
        let mut here = self.past(text);
        let first = here.at;
        if text.bytes.len() <= first {
            let word = Word::Invalid;
            return Step { word, next: self };
        }
        let Some(value) = hex_digit(text.bytes[first]) else {
            let word = Word::Invalid;
            return Step { word, next: here };
        };
        let mut index = value;
        here = here.past(text);
        // no index is counted: the cursor counts bytes and characters, which no iterator does
        while here.at < text.bytes.len() {
            let at = here.at;
            let b = text.bytes[at];
            if b == b']' {
                let word = Word::Number(index);
                return Step {
                    word,
                    next: here.past(text),
                };
            }
            let Some(d) = hex_digit(b) else {
                let word = Word::Invalid;
                return Step { word, next: here };
            };
            if MOST_TO_LENGTHEN < index {
                let word = Word::Invalid;
                return Step { word, next: here };
            }
            index = index * 16 + d;
            here = here.past(text);
        }
        let word = Word::Invalid;
        Step { word, next: self }
    }

    // The word that begins here, white space being passed, in De Bruijn's notation.
    // Apart from classic notation's, which is like it in part: each follows its own `first_word` of the definitions.
    pub(crate) fn first_de_bruijn(self, text: Text) -> Step
        requires { Placed text.bytes.now self }
        ensures { Tells text.entry.bytes.now self (first_word (remains text.entry.bytes.now self.at)) result
            × (self.at + taken result.word ≤ result.next.at) × Last text.entry.bytes.now result }
    {
        let at = self.at;
        if text.bytes.len() <= at {
            let word = Word::End;
            return Step { word, next: self };
        }
        let b = text.bytes[at];
        if b == b'[' {
            return self.bracketed(text);
        }
        let next = self.past(text);
        if b == b'\\' {
            let word = Word::Binder(unnamed(next.at));
            return Step { word, next };
        }
        if b == SIGN_FIRST {
            let word = Word::Binder(unnamed(next.at));
            return Step { word, next };
        }
        if b == b'(' {
            let word = Word::Left;
            return Step { word, next };
        }
        if b == b')' {
            let word = Word::Right;
            return Step { word, next };
        }
        if let Some(d) = hex_digit(b) {
            let word = Word::Number(d);
            return Step { word, next };
        }
        let word = Word::Invalid;
        Step { word, next: self }
    }
}
