// Reading text in both notations: the answer is the bytes of its term, or why there is none.
#![tactic(auto)]

mod building;
mod opens;
mod sequences;
mod tokens;

ghost use Rattle.std.specs.Prelude.{◌≡◌, []};
ghost use Rattle.std.proofs.Math.Option.{none};
ghost use Rattle.calculus.specs.Refusal.{◌then◌};
ghost use Rattle.calculus.specs.Judging.{within};
ghost use Rattle.calculus.specs.Reading.{read_text};
ghost use Rattle.calculus.specs.Outcomes.{stored, coded, parse_of};
ghost use Rattle.term.specs.Answers.{told};
ghost use Rattle.term.specs.Notations.{notation_of};
ghost use Rattle.parser.specs.States.{reading, go};
ghost use Rattle.parser.specs.Tokens.{words_on, Valid};
ghost use Rattle.nodes.specs.Lending.{Lent};
ghost use Rattle.nodes.specs.Working.{Works};
ghost use Rattle.parser.specs.Parsing.{Storable, Saves};

use building::{Built, Part};
use calculus::{MOST_HEIGHT, ROOM_PER_NODE};
use nodes::lending::grant;
use opens::Opens;
use sequences::sequence;
use term::{Notation, Refusal};
use words::Cursor;
use words::text::Text;

// EmptyExpression, TooHigh, then TooManyNodes, of what was read; the bytes of a term that is within the bounds.
#[tactic(auto, using(crate::proofs::Saving::saving))]
fn save(store: &[u64], cap: usize, read: Built, out: &mut [u8]) -> Result<usize, Refusal>
    requires { Storable store.now cap read out.old }
    ensures { Saves store.now cap read out.old result out.new }
{
    match read.part {
        Part::Nothing | Part::Empty => Err(Refusal::EmptyExpression),
        Part::Term(whole) => {
            if MOST_HEIGHT < whole.height {
                return Err(Refusal::TooHigh);
            }
            if cap < read.used {
                return Err(Refusal::TooManyNodes);
            }
            Ok(nodes::save(store, whole.node, out, 0))
        }
    }
}

// The walk's refusals, then EmptyExpression, TooHigh and TooManyNodes, of a text whose words are valid.
fn build(
    notation: Notation,
    cap: usize,
    text: Text,
    out: &mut [u8],
    store: &mut [u64],
) -> Result<usize, Refusal>
    requires { Lent cap out.old store.old × Valid (notation_of notation) text.bytes.now 0 }
    ensures { Works (stored (go [] (words_on (notation_of notation) text.entry.bytes.now 0) (reading none) []
        then within cap then coded) out.old) store.old (told result) out.new store.new }
{
    let mut stack = Opens::new();
    let start = Cursor { at: 0, chars: 0 };
    let went = sequence(text, notation, &mut stack, store, cap, start, 0)?;
    save(store, cap, went.read, out)
}

// All that comes after OutsideBounds and TooLittleRoom.
fn read(
    notation: Notation,
    cap: usize,
    text: &[u8],
    out: &mut [u8],
    store: &mut [u64],
) -> Result<usize, Refusal>
    requires { Lent cap out.old store.old }
    ensures { Works (stored (read_text (notation_of notation) cap text.now then coded) out.old)
        store.old (told result) out.new store.new }
{
    let clean = words::judge(notation, text)?;
    build(notation, cap, clean, out, store)
}

// OutsideBounds, TooLittleRoom, then the work, after which the room is cleared. The same frame as of `apply`, `eta` and
// `reduce`: one function over the work would need a closure that holds the output, no plainer.
pub fn parse(
    notation: Notation,
    cap: u64,
    text: &[u8],
    out: &mut [u8],
    room: &mut [u64],
) -> Result<usize, Refusal>
    ensures { (told result, out.new, room.new)
        ≡ parse_of (notation_of notation) cap text.now out.old room.old }
{
    let most = grant(cap, out.len(), room.len())?;
    let answer = read(notation, most, text, out, &mut room[..ROOM_PER_NODE * most]);
    nodes::clear(room, most);
    answer
}
