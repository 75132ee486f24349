// Both printers: the De Bruijn and the classic text of any coded term, written into a lent slice.
#![tactic(auto)]

mod gauging;
mod pieces;
pub mod putting;
mod writer;

ghost use Rattle.std.specs.Prelude.{◌≡◌};
ghost use Rattle.calculus.specs.Bounds.{most_height};
ghost use Rattle.calculus.specs.Outcomes.{print_of};
ghost use Rattle.term.specs.Answers.{told};
ghost use Rattle.term.specs.Notations.{notation_of};
ghost use Rattle.printer.specs.Parts.{groups_lam, groups_app, Writable, Writes};
ghost use Rattle.printer.specs.Printing.{Printable, Measures, Fitting, Prints};
ghost use Rattle.printer.specs.Writers.{WritesWhole};
ghost use Rattle.printer.specs.declared.Part.TheVariants.{Whole};

use calculus::{MOST_HEIGHT, MOST_NODES};
use gauging::Gauge;
use pieces::Style;
use term::{Head, Notation, Refusal};

// Which part of an application a term is, or none.
#[derive(Clone, Copy, Debug, PartialEq, Eq)]
enum Part {
    Whole,
    Left,
    Right,
}

impl Part {
    // Whether an abstraction, and whether an application, stands in parentheses.
    fn groups_abstraction(self) -> bool
        ensures { result ≡ groups_lam self }
    {
        matches!(self, Part::Left | Part::Right)
    }

    fn groups_application(self) -> bool
        ensures { result ≡ groups_app self }
    {
        matches!(self, Part::Right)
    }
}

// The offset after a term that was read, and the place after its text: two places, no buffer with a length.
#[derive(Clone, Copy, Debug, PartialEq, Eq)]
struct Reached {
    next: usize,
    to: usize,
}

// The text of the term at an offset. The loop goes on to an abstraction's body and to an application's right part, and
// remembers only how many parentheses to close at the end; the left part is a call. The room falls at each call, so
// that calls nest no deeper than it. Its parameters stay apart: speed, as in the engine, whose calls with
// structs cost much.
fn write_part(
    out: &mut [u8],
    mut to: usize,
    style: Style,
    s: &[u8],
    mut at: usize,
    mut depth: u64,
    mut part: Part,
    room: u64,
) -> Reached
    requires { Writable style s.now at depth part to room }
    ensures { Writes style s.now at depth part out.old to result out.new }
{
    let mut closes: usize = 0;
    loop {
        // a term begins here
        match term::head_at(s, at).unwrap() {
            Head::Variable(index) => {
                let end = pieces::put_variable(out, to, style, depth, index);
                let to = putting::put_times(out, end, b')', closes);
                return Reached { next: at + 9, to };
            }
            Head::Abstraction => {
                let opened = putting::put_if(out, to, part.groups_abstraction(), b'(');
                closes += opened - to;
                to = pieces::put_binder(out, opened, style, depth);
                depth += 1;
                part = Part::Whole;
                at += 1;
            }
            Head::Application => {
                let opened = putting::put_if(out, to, part.groups_application(), b'(');
                closes += opened - to;
                let left = write_part(out, opened, style, s, at + 1, depth, Part::Left, room - 1);
                to = pieces::put_gap(out, left.to, style);
                part = Part::Right;
                at = left.next;
            }
        }
    }
}

// The text of a whole term, and the place after it.
fn write_whole(out: &mut [u8], to: usize, style: Style, s: &[u8]) -> usize
    requires { Writable style s.now 0 0 Whole to most_height }
    ensures { WritesWhole style s.now out.old to result out.new }
{
    let text = write_part(out, to, style, s, 0, 0, Part::Whole, MOST_HEIGHT);
    text.to
}

// How long the text of a whole term is: the walk writes into nothing.
fn text_length(style: Style, s: &[u8]) -> usize
    requires { Writable style s.now 0 0 Whole 0 most_height }
    ensures { Measures style s.now result }
{
    let mut nothing: [u8; 0] = [];
    writer::write(&mut nothing, style, s)
}

// Whether a text fits, or the length needed. Where there is plenty of room the text need not be measured.
#[tactic(auto, using(crate::proofs::Printing::measured_length))]
fn ensure_fits(style: Style, plenty: usize, s: &[u8], room: usize) -> Result<(), Refusal>
    requires { Printable style plenty s.now }
    ensures { Fitting style plenty s.now room result }
{
    if plenty <= room {
        return Ok(());
    }
    let needed = text_length(style, s);
    if needed <= room {
        Ok(())
    } else {
        Err(Refusal::OutputTooShort(needed))
    }
}

// A whole term, for whose text so much room is plenty.
fn print_whole(style: Style, plenty: usize, s: &[u8], out: &mut [u8]) -> Result<usize, Refusal>
    requires { Printable style plenty s.now }
    ensures { Prints style plenty s.now out.old result out.new }
{
    ensure_fits(style, plenty, s, out.len())?;
    Ok(writer::write(out, style, s))
}

// The input's refusals, then OutputTooShort. A text has at most 20 bytes a node.
#[tactic(auto, using(crate::proofs::Printing::checking))]
fn print_checked(notation: Notation, s: &[u8], out: &mut [u8]) -> Result<usize, Refusal>
    ensures { (told result, out.new)
        ≡ print_of (notation_of notation) s.now out.old }
{
    let facts = term::check(MOST_NODES, s)?;
    let style = Style {
        notation,
        most: facts.depth,
    };
    print_whole(style, (facts.nodes * 20) as usize, s, out)
}

// One walk knows a whole term, and only where it does not is the input checked for the refusal that holds.
pub fn print(notation: Notation, s: &[u8], out: &mut [u8]) -> Result<usize, Refusal>
    ensures { (told result, out.new)
        ≡ print_of (notation_of notation) s.now out.old }
{
    match gauging::gauge_whole(notation, s) {
        Some(Gauge { most, plenty }) => print_whole(Style { notation, most }, plenty, s, out),
        None => print_checked(notation, s, out),
    }
}
