// The tokens of the walk: words whose names are resolved among what is open, which a stack holds.
ghost use Rattle.std.specs.Prelude.{◌≡◌, ◌≤◌};
ghost use Rattle.calculus.specs.Bounds.{most_text};
ghost use Rattle.term.specs.Notations.{notation_of};
ghost use Rattle.words.specs.Places.{Placed};
ghost use Rattle.parser.specs.Opens.{opens, Opened, binder_of, name_at};
ghost use Rattle.parser.specs.Tokens.{Valid, Meets};

use crate::opens::Opens;
use term::{Notation, Refusal};
use words::text::Text;
use words::{Cursor, Name, Word};

// A binder by the place of its name, in half of what a public Name takes: the stack is cleared for each text.
#[derive(Clone, Copy, Debug, PartialEq, Eq)]
pub(crate) struct Binder {
    pub(crate) from: u32,
    pub(crate) to: u32,
}

// No From: the first has a `requires`, and the two are a pair.
impl Binder {
    // With the name's ends.
    fn named(name: Name) -> Binder
        requires { (name.from ≤ most_text) × (name.to ≤ most_text) }
        ensures { result ≡ binder_of name }
    {
        Binder {
            from: name.from as u32,
            to: name.to as u32,
        }
    }

    // The place of its name.
    pub(crate) fn name(self) -> Name
        ensures { result ≡ name_at self }
    {
        Name {
            from: self.from as usize,
            to: self.to as usize,
        }
    }
}

// What opens is a `(`, or a binder by its name. The end is a case as a `)` is, since a sequence ends at either.
#[derive(Clone, Copy, Debug, PartialEq, Eq)]
pub(crate) enum Token {
    Index(u64),
    Open(Option<Binder>),
    Close,
    End,
}

// A token and the place after it.
pub(crate) fn token_at(
    text: Text,
    notation: Notation,
    stack: &Opens,
    here: Cursor,
) -> Result<(Token, Cursor), Refusal>
    requires { Placed text.bytes.now here × Valid (notation_of notation) text.bytes.now here.at
        × Opened text.bytes.now stack.now }
    ensures { Meets (notation_of notation) text.entry.bytes.now
        (opens text.entry.bytes.now stack.now) here result }
{
    let step = here.next(text, notation);
    let next = step.next;
    match step.word {
        Word::Number(index) => Ok((Token::Index(index), next)),
        Word::Named(name) => {
            let Some(index) = stack.resolve(text, name) else {
                return Err(Refusal::UndefinedFreeVariable);
            };
            Ok((Token::Index(index), next))
        }
        Word::Left => Ok((Token::Open(None), next)),
        Word::Binder(name) => Ok((Token::Open(Some(Binder::named(name))), next)),
        Word::Right => Ok((Token::Close, next)),
        Word::End => Ok((Token::End, next)),
        // not met: all words were judged
        Word::Invalid => unreachable!(),
    }
}
