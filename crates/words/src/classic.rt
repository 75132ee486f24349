// The next word in classic notation.
ghost use Rattle.std.specs.Prelude.{◌+◌, ◌≤◌, ◌<◌};
ghost use Rattle.calculus.specs.Classic.{binder_at, first_word};
ghost use Rattle.words.specs.Places.{Placed, remains};
ghost use Rattle.words.specs.Steps.{taken, Last, Tells};

use crate::bytes::{Run, SIGN_FIRST, is_figure, is_letter};
use crate::text::Text;
use crate::{Cursor, Name, Step, Word, unnamed};

impl Cursor {
    // The binder whose lambda was passed.
    fn binder(self, text: Text) -> Step
        requires { Placed text.bytes.now self × (0 < self.at) }
        ensures { Tells text.entry.bytes.now self (binder_at (remains text.entry.bytes.now self.at)) result }
    {
        let from = self.at;
        if text.bytes.len() <= from {
            let word = Word::Binder(unnamed(from));
            return Step { word, next: self };
        }
        if is_figure(text.bytes[from]) {
            let word = Word::Invalid;
            return Step { word, next: self };
        }
        let end = self.over(text, Run::Bound);
        let to = end.at;
        if text.bytes.len() <= to {
            let word = Word::Binder(Name { from, to });
            return Step { word, next: end };
        }
        if text.bytes[to] == b'.' {
            let word = Word::Binder(Name { from, to });
            return Step {
                word,
                next: end.past(text),
            };
        }
        let word = Word::Invalid;
        Step { word, next: end }
    }

    // The word that begins here, white space being passed, in classic notation.
    pub(crate) fn first_classic(self, text: Text) -> Step
        requires { Placed text.bytes.now self }
        ensures { Tells text.entry.bytes.now self (first_word (remains text.entry.bytes.now self.at)) result
            × (self.at + taken result.word ≤ result.next.at) × Last text.entry.bytes.now result }
    {
        let at = self.at;
        if text.bytes.len() <= at {
            let word = Word::End;
            return Step { word, next: self };
        }
        let b = text.bytes[at];
        let next = self.past(text);
        if b == b'\\' {
            return next.binder(text);
        }
        if b == SIGN_FIRST {
            return next.binder(text);
        }
        if b == b'(' {
            let word = Word::Left;
            return Step { word, next };
        }
        if b == b')' {
            let word = Word::Right;
            return Step { word, next };
        }
        if is_letter(b) {
            let end = next.over(text, Run::Elsewhere);
            return Step {
                word: Word::Named(Name {
                    from: at,
                    to: end.at,
                }),
                next: end,
            };
        }
        let word = Word::Invalid;
        Step { word, next: self }
    }
}
