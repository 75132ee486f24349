// One walk over any bytes: whether they are a whole term within the bounds, and what room its text takes at most.
ghost use Rattle.std.specs.Prelude.{◌≡◌, cond, ◌≤◌, length};
ghost use Rattle.calculus.specs.Writing.{index_text, name_text, gap_text};
ghost use Rattle.term.specs.Notations.{notation_of};
ghost use Rattle.printer.specs.Gauges.{VariableRoom, BinderRoom, Gaugeable, Gauges, GaugesWhole};

use crate::Part;
use crate::pieces::figures_needed;
use calculus::{MOST_HEIGHT, MOST_NODES, OUTPUT_PER_NODE};
use term::{Head, Notation};

// THE PIECES, each in at least as many bytes as it takes.
// The three matches on the notation stay: data by case, no step is picked.
fn index_room(index: u64) -> usize
    ensures { (length (index_text index) ≤ result) × (result ≤ 18) }
{
    if index == 0 {
        return 3;
    }
    // found out in any case, so that there is no branch on the index
    let bracketed = figures_needed(index) + 2;
    if index < 16 { 1 } else { bracketed }
}

fn name_room(number: u64) -> usize
    ensures { (length (name_text number) ≤ result) × (result ≤ 14) }
{
    if number < 26 {
        return 1;
    }
    if number < 702 { 2 } else { 14 }
}

// The name of a free variable depends on what is not known before the end of the walk.
fn variable_room(notation: Notation, depth: u64, index: u64) -> usize
    ensures { VariableRoom notation depth index result }
{
    match notation {
        Notation::DeBruijn => index_room(index),
        Notation::Classic => {
            if index == 0 {
                return 9;
            }
            if index <= depth {
                name_room(depth - index)
            } else {
                14
            }
        }
    }
}

fn binder_room(notation: Notation, depth: u64) -> usize
    ensures { BinderRoom notation depth result }
{
    match notation {
        Notation::DeBruijn => 2,
        Notation::Classic => name_room(depth) + 3,
    }
}

fn gap_room(notation: Notation) -> usize
    ensures { (result ≡ length (gap_text (notation_of notation))) × (result ≤ 1) }
{
    match notation {
        Notation::DeBruijn => 0,
        Notation::Classic => 1,
    }
}

fn pair_room(grouped: bool) -> usize
    ensures { (result ≡ cond grouped 2 0) × (result ≤ 2) }
{
    if grouped { 2 } else { 0 }
}

// What a walk counts: the nodes, the most abstractions on a path, and room enough for the text.
#[derive(Clone, Copy, Debug, PartialEq, Eq)]
struct Counts {
    nodes: u64,
    most: u64,
    text: usize,
}

// THE WALK from an offset where nothing need be a term: it tells the offset after the term there, if there is one, and
// adds the term to the counts. It goes on as `write_part` does, but the room falls at every node, so the height is
// bounded. Its parameters stay apart: speed, structs that go through memory at every call
// cost the engine much.
fn gauge_part(
    notation: Notation,
    s: &[u8],
    mut at: usize,
    mut depth: u64,
    mut part: Part,
    mut room: u64,
    counts: &mut Counts,
) -> Option<usize>
    requires { Gaugeable s.now at depth room counts.old }
    ensures { Gauges notation s.now at depth part room counts.old result counts.new }
{
    loop {
        if room == 0 {
            return None;
        }
        room -= 1;
        counts.nodes += 1;
        match term::head_at(s, at)? {
            Head::Variable(index) => {
                counts.most = counts.most.max(depth);
                counts.text += variable_room(notation, depth, index);
                return Some(at + 9);
            }
            Head::Abstraction => {
                counts.text += pair_room(part.groups_abstraction()) + binder_room(notation, depth);
                at += 1;
                depth += 1;
                part = Part::Whole;
            }
            Head::Application => {
                counts.text += pair_room(part.groups_application()) + gap_room(notation);
                at = gauge_part(notation, s, at + 1, depth, Part::Left, room, counts)?;
                part = Part::Right;
            }
        }
    }
}

// What one walk knows of a whole term within the bounds: its most abstractions on a path and room enough for its text.
#[derive(Clone, Copy, Debug, PartialEq, Eq)]
pub(crate) struct Gauge {
    pub(crate) most: u64,
    pub(crate) plenty: usize,
}

pub(crate) fn gauge_whole(notation: Notation, s: &[u8]) -> Option<Gauge>
    ensures { GaugesWhole notation s.now result }
{
    // what is longer has too many nodes, or is no term
    if OUTPUT_PER_NODE * (MOST_NODES as usize) < s.len() {
        return None;
    }
    let mut counts = Counts {
        nodes: 0,
        most: 0,
        text: 0,
    };
    let end = gauge_part(notation, s, 0, 0, Part::Whole, MOST_HEIGHT, &mut counts)?;
    if end < s.len() || MOST_NODES < counts.nodes {
        return None;
    }
    Some(Gauge {
        most: counts.most,
        plenty: counts.text,
    })
}
