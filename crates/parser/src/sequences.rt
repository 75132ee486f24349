// A sequence holds groups and a group holds a sequence: one pass over the tokens, which walks and builds.
ghost use Rattle.term.specs.Notations.{notation_of};
ghost use Rattle.parser.specs.Opens.{Held};
ghost use Rattle.parser.specs.Sequences.{Ready, Reads, Groups};

use crate::building::{Built, Part, joined, with_abstraction, with_variable};
use crate::opens::Opens;
use crate::tokens::{Binder, Token, token_at};
use calculus::MOST_OPEN;
use term::{Notation, Refusal};
use words::Cursor;
use words::text::Text;

// What was read up to a place, and whether a `)` closed it there: all three are meant at once, so no Option.
#[derive(Clone, Copy, Debug, PartialEq, Eq)]
pub(crate) struct Went {
    pub(crate) read: Built,
    pub(crate) here: Cursor,
    pub(crate) closed: bool,
}

// The items up to a `)`, which is passed, or the end. The body of an abstraction is the rest of its sequence.
// What is handed on stays parameters: a struct would lend the stack and the store anew at each call, no plainer.
#[cycle(group_sequence)]
pub(crate) fn sequence(
    text: Text,
    notation: Notation,
    stack: &mut Opens,
    store: &mut [u64],
    cap: usize,
    from: Cursor,
    base: usize,
) -> Result<Went, Refusal>
    requires { Ready (notation_of notation) text.bytes.now stack.old store.old cap from base }
    ensures { Reads (notation_of notation) text.entry.bytes.now stack.old
        store.old cap from base result stack.new store.new }
{
    let mut here = from;
    let mut read = Built {
        part: Part::Nothing,
        used: base,
    };
    loop {
        let (token, next) = token_at(text, notation, stack, here)?;
        match token {
            Token::Index(index) => {
                read = with_variable(store, cap, read, index);
                here = next;
            }
            Token::Open(opening) => {
                let went = group(text, notation, stack, opening, store, cap, next, read.used)?;
                if let Some(_) = opening {
                    return Ok(Went {
                        read: with_abstraction(store, cap, read, went.read),
                        here: went.here,
                        closed: went.closed,
                    });
                }
                read = joined(store, cap, read, went.read);
                here = went.here;
            }
            Token::Close => {
                return Ok(Went {
                    read,
                    here: next,
                    closed: true,
                });
            }
            Token::End => {
                return Ok(Went {
                    read,
                    here: next,
                    closed: false,
                });
            }
        }
    }
}

// What a `(` or a binder holds: a sequence, with one more open.
#[cycle(group_sequence)]
#[tactic(auto, using(crate::proofs::Nesting::refusing))]
fn group(
    text: Text,
    notation: Notation,
    stack: &mut Opens,
    opening: Option<Binder>,
    store: &mut [u64],
    cap: usize,
    from: Cursor,
    base: usize,
) -> Result<Went, Refusal>
    requires { Ready (notation_of notation) text.bytes.now stack.old store.old cap from base
        × Held text.bytes.now opening }
    ensures { Groups (notation_of notation) text.entry.bytes.now stack.old opening
        store.old cap from base result stack.new store.new }
{
    if MOST_OPEN <= stack.len() {
        return Err(Refusal::TooHigh);
    }
    stack.push(opening);
    let went = sequence(text, notation, stack, store, cap, from, base);
    stack.pop();
    went
}
