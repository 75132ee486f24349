// A coded term loaded so that its variables name their binders, with what eta asks of each abstraction.
ghost use Rattle.std.specs.Prelude.{◌≡◌, ◌+◌, ◌*◌, ◌≤◌, length};
ghost use Rattle.calculus.specs.Term.{var};
ghost use Rattle.calculus.specs.Bounds.{most_height};
ghost use Rattle.nodes.specs.Store.{Same};
ghost use Rattle.eta.specs.Named.{named};
ghost use Rattle.eta.specs.Store.{Names};
ghost use Rattle.eta.specs.Naming.{Counts, Countable, Nameable, Reads};

use crate::named::{Binder, Node, put_named};
use term::Head;

// The offset after a term, the number of the next node (the term is the one before it), and whether index 0 is in it.
// All three are meant at once: an Option is no plainer.
#[derive(Clone, Copy, Debug, PartialEq, Eq)]
pub(crate) struct Read {
    pub(crate) next: usize,
    pub(crate) used: usize,
    pub(crate) zero: bool,
}

// A variable under so many binders; the one that binds it is counted.
fn name(room: &mut [u64], used: usize, counts: &mut [u64], depth: usize, index: u64) -> usize
    requires { (2 * used + 2 ≤ length room.old) × (depth ≤ most_height) × Countable counts.old depth 1 }
    ensures { (result ≡ used + 1) × Same room.old room.new used
        × Names room.new (named depth (var index)) used
        × Counts counts.old counts.new depth (named depth (var index)) }
{
    if index == 0 {
        return put_named(room, used, Node::Free(0));
    }
    let around = depth as u64;
    if around < index {
        return put_named(room, used, Node::Free(index - around));
    }
    let level = depth - index as usize;
    counts[level] += 1;
    put_named(room, used, Node::Bound(level))
}

// The term whose bytes stand at an offset, under so many binders, made of new nodes.
// The parameters stay apart, here and in `write`: a struct goes through memory at every call of a recursion.
pub(crate) fn load(
    s: &[u8],
    at: usize,
    room: &mut [u64],
    used: usize,
    counts: &mut [u64],
    depth: usize,
) -> Read
    requires { Nameable s.now at room.old used counts.old depth }
    ensures { Reads s.now at room.old used counts.old depth result
        room.new counts.new }
{
    // a term stands here
    match term::head_at(s, at).unwrap() {
        Head::Variable(index) => Read {
            next: at + 9,
            used: name(room, used, counts, depth, index),
            zero: index == 0,
        },
        Head::Abstraction => {
            counts[depth] = 0;
            let body = load(s, at + 1, room, used, counts, depth + 1);
            let once = counts[depth] == 1;
            let linear = once && !body.zero;
            let binder = Binder {
                level: depth,
                linear,
            };
            let node = Node::Abstraction(binder, body.used - 1);
            Read {
                next: body.next,
                used: put_named(room, body.used, node),
                zero: body.zero,
            }
        }
        Head::Application => {
            let left = load(s, at + 1, room, used, counts, depth);
            let right = load(s, left.next, room, left.used, counts, depth);
            let node = Node::Application(left.used - 1, right.used - 1);
            let zero = left.zero || right.zero;
            Read {
                next: right.next,
                used: put_named(room, right.used, node),
                zero,
            }
        }
    }
}
