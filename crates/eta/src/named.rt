// A node whose variables name their binders: what it is, read from its two numbers and put as two.
ghost use Rattle.std.specs.Prelude.{◌≡◌, ◌+◌, ◌*◌, ◌≤◌, length};
ghost use Rattle.nodes.specs.Store.{word, link};
ghost use Rattle.nodes.proofs.Stored.{Stored};
ghost use Rattle.eta.specs.Store.{node_in, Packable, word_of, link_of};

// In a node's first number: its kind, and at an abstraction 4 more if its binder is linear, and 8 for each level.
// They stay numbers: the room is lent as numbers.
const BOUND: u64 = 0;

const FREE: u64 = 1;

const ABSTRACTION: u64 = 2;

const APPLICATION: u64 = 3;

const LINEAR: u64 = 4;

const LEVEL: u64 = 8;

// A binder's level is how many stood above it; it is linear if it is named once and index 0 is not in the body. Both
// are meant at once: an Option of the level is no plainer.
#[derive(Clone, Copy, Debug, PartialEq, Eq)]
pub(crate) struct Binder {
    pub(crate) level: usize,
    pub(crate) linear: bool,
}

// A variable by its binder's level, or by its number if it is free (or index 0); the node of a body, or of two parts.
#[derive(Clone, Copy, Debug, PartialEq, Eq)]
pub(crate) enum Node {
    Bound(usize),
    Free(u64),
    Abstraction(Binder, usize),
    Application(usize, usize),
}

// What a node is: its numbers are read here alone.
// The room's length stays a clause: the room is lent as numbers by C, and `used` goes in a register.
pub(crate) fn named_at(room: &[u64], node: usize) -> Node
    requires { 2 * node + 2 ≤ length room.now }
    ensures read { result ≡ node_in (word room.now node) (link room.now node) }
    ensures again { Packable result }
{
    let w = room[2 * node];
    let x = room[2 * node + 1];
    match w % 4 {
        BOUND => Node::Bound(x as usize),
        FREE => Node::Free(x),
        ABSTRACTION => {
            let level = (w / LEVEL) as usize;
            let linear = w / LINEAR % 2 == 1;
            Node::Abstraction(Binder { level, linear }, x as usize)
        }
        _ => Node::Application(nodes::left_of(x), nodes::right_of(x)),
    }
}

// Node `used` becomes this one; the number of the next node is returned. Its numbers are made here alone.
pub(crate) fn put_named(room: &mut [u64], used: usize, node: Node) -> usize
    requires { (2 * used + 2 ≤ length room.old) × Packable node }
    ensures { (result ≡ used + 1) × Stored room.old room.new used (word_of node) (link_of node) }
{
    match node {
        Node::Bound(level) => nodes::put(room, used, BOUND, level as u64),
        Node::Free(number) => nodes::put(room, used, FREE, number),
        Node::Abstraction(binder, body) => {
            let kind = if binder.linear {
                ABSTRACTION + LINEAR
            } else {
                ABSTRACTION
            };
            nodes::put(
                room,
                used,
                kind + LEVEL * (binder.level as u64),
                body as u64,
            )
        }
        Node::Application(left, right) => {
            nodes::put(room, used, APPLICATION, nodes::pair(left, right))
        }
    }
}
