// The passes over a whole text: whether its characters are in the domain, and whether its words are valid.
ghost use Rattle.std.specs.Prelude.{◌≡◌, ◌≤◌, ◌<◌, length, get_or};
ghost use Rattle.calculus.specs.Bounds.{most_text};
ghost use Rattle.term.specs.Notations.{notation_of};
ghost use Rattle.term.specs.declared.Refusal.TheVariants.{InvalidCharacter};
ghost use Rattle.words.specs.Places.{char_of};
ghost use Rattle.words.specs.Judging.{Scans, Worded};

use crate::bytes::{SIGN_FIRST, SIGN_SECOND, code_of, is_plain};
use crate::text::Text;
use crate::{Cursor, Word};
use term::{Notation, Refusal};

// The offset of the first character outside the domain.
pub(crate) fn scan_domain(text: &[u8]) -> Option<usize>
    requires { length text.now ≤ most_text }
    ensures { Scans text.now result }
{
    let mut rest = text;
    loop {
        match rest {
            [] => return None,
            [SIGN_FIRST, after @ ..] => {
                let [SIGN_SECOND, further @ ..] = after else {
                    return Some(text.len() - rest.len());
                };
                rest = further;
            }
            [b, after @ ..] => {
                if !is_plain(*b) {
                    return Some(text.len() - rest.len());
                }
                rest = after;
            }
        }
    }
}

// What refuses the character at a place: its number in characters, and the code point there.
fn invalid_at(text: Text, here: Cursor) -> Refusal
    requires { here.at < length text.bytes.now }
    ensures { result ≡ InvalidCharacter here.chars (char_of (get_or text.entry.bytes.now here.at 0)) }
{
    Refusal::InvalidCharacter {
        place: here.chars,
        code: code_of(text.bytes[here.at]),
    }
}

// The text, or its first invalid character.
pub(crate) fn scan_words<'a>(notation: Notation, text: Text<'a>) -> Result<Text<'a>, Refusal>
    ensures { Worded (notation_of notation) text.entry.bytes.now result }
{
    let mut here = Cursor { at: 0, chars: 0 };
    loop {
        let step = here.next(text, notation);
        match step.word {
            Word::End => return Ok(text),
            Word::Invalid => return Err(invalid_at(text, step.next)),
            _ => here = step.next,
        }
    }
}
