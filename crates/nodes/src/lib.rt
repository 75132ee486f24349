// Numbered nodes in lent room, two numbers each: how they are made, loaded from coded bytes, saved to them and cleared.
#![tactic(auto)]

pub mod lending;
pub mod reading;
pub mod runs;

ghost use Rattle.std.specs.Prelude.{◌≡◌, ◌+◌, ◌*◌, ◌/◌, ◌%◌, ◌≤◌, ◌<◌, eqb, max, length, set};
ghost use Rattle.calculus.specs.Term.{Term, var, lam, app};
ghost use Rattle.calculus.specs.Bounds.{most_nodes, room_per_node};
ghost use Rattle.calculus.specs.Bytes.{digits};
ghost use Rattle.calculus.specs.Outcomes.{cleared};
ghost use Rattle.calculus.proofs.Putting.{Puts};
ghost use Rattle.nodes.specs.Packing.{packed, lowered, settled, kind_in, nodes_in, height_in, free_in, normal_in};
ghost use Rattle.nodes.specs.Store.{Holds, Same, word, link};
ghost use Rattle.nodes.specs.Node.{node_in};
ghost use Rattle.nodes.specs.Coded.{Loadable, Loads, Savable, Saves};

use calculus::ROOM_PER_NODE;
use term::Head;

// How much each part of a node's first number stands for: nodes above the kind, and so on.
const NODES: u64 = 4;

const HEIGHT: u64 = 1048576;

// What one more in the bound on free indices comes to: raising adds so much for each.
pub const FREE: u64 = 1073741824;

const NORMAL: u64 = 1099511627776;

// The bound on free indices that says nothing.
// stays a number: the room is lent as numbers, and ten bits have no place for one more case
pub const UNKNOWN: u64 = 1023;

// A second number holds two parts: the right one stands for this much.
const RIGHT: u64 = 4294967296;

// 1 for a variable, 2 for an abstraction, 3 for an application, as in coded bytes.
// stays a number, and so do the facts below: the room is lent as numbers
pub fn kind_of(w: u64) -> u64
    ensures { result ≡ kind_in w }
{
    w % 4
}

// How many nodes the node's term has.
pub fn nodes_of(w: u64) -> u64
    ensures { result ≡ nodes_in w }
{
    w / NODES % 262144
}

// The height of the node's term.
pub fn height_of(w: u64) -> u64
    ensures { result ≡ height_in w }
{
    w / HEIGHT % 1024
}

// A bound on the free indices of the node's term, or UNKNOWN.
pub fn free_of(w: u64) -> u64
    ensures { result ≡ free_in w }
{
    w / FREE % 1024
}

// 1 if the node's term is known to be normal, 0 if not, as it stands in the number; `is_normal` is the test.
pub fn normal_of(w: u64) -> u64
    ensures { result ≡ normal_in w }
{
    w / NORMAL % 2
}

// Whether the node's term is known to be normal.
pub fn is_normal(w: u64) -> bool
    ensures { result ≡ eqb (normal_in w) 1 }
{
    normal_of(w) == 1
}

// The left part that a second number holds.
pub fn left_of(x: u64) -> usize
    ensures { result ≡ x % 4294967296 }
{
    (x % RIGHT) as usize
}

// The right part that a second number holds.
pub fn right_of(x: u64) -> usize
    ensures { result ≡ x / 4294967296 }
{
    (x / RIGHT) as usize
}

// What a node is: a variable and its index, or the numbers of its parts.
#[derive(Clone, Copy, Debug, PartialEq, Eq)]
pub enum Node {
    Variable(u64),
    Abstraction(usize),
    Application(usize, usize),
}

// The node, read from both of its numbers.
#[tactic(auto, using(crate::proofs::Making::number_tests), unfolding(crate::specs::Node::node_in))]
pub fn node_at(room: &[u64], node: usize) -> Node
    requires { 2 * node + 2 ≤ length room.now }
    ensures { result ≡ node_in (word room.now node) (link room.now node) }
{
    let x = room[2 * node + 1];
    match kind_of(room[2 * node]) {
        1 => Node::Variable(x),
        2 => Node::Abstraction(x as usize),
        _ => Node::Application(left_of(x), right_of(x)),
    }
}

// Two parts in one number.
// stays a number: the room is lent as numbers
pub fn pair(left: usize, right: usize) -> u64
    requires { (left < 4294967296) × (right < 4294967296) }
    ensures { result ≡ left + 4294967296 * right }
{
    left as u64 + RIGHT * (right as u64)
}

// Both numbers of a node; the number of the next one is returned.
// room and used stay apart, here and above: the room is lent, and a struct of both went through memory at each call
pub fn put(room: &mut [u64], used: usize, w: u64, x: u64) -> usize
    requires { 2 * used + 2 ≤ length room.old }
    ensures { (result ≡ used + 1)
        × (room.new ≡ set (set room.old (2 * used) w) (2 * used + 1) x) }
{
    room[2 * used] = w;
    room[2 * used + 1] = x;
    used + 1
}

// A first number, of its parts.
// stays numbers: the room is lent as numbers, and `normal` is a bit of one
fn pack(kind: u64, nodes: u64, height: u64, free: u64, normal: u64) -> u64
    requires { (kind < 4) × (nodes < 262144) × (height < 1024) × (free < 1024) × (normal < 2) }
    ensures { result ≡ packed kind nodes height free normal }
{
    kind + NODES * nodes + HEIGHT * height + FREE * free + NORMAL * normal
}

// Under a binder a bound on free indices is one less.
fn lower(free: u64) -> u64
    ensures { result ≡ lowered free }
{
    if free == 0 {
        return 0;
    }
    if free == UNKNOWN {
        return UNKNOWN;
    }
    free - 1
}

// 1 if an application is normal, else 0, from its parts' first numbers.
// stays a number: it is a bit of the first number, and the room is lent as numbers
#[tactic(auto, using(crate::proofs::Making::number_tests))]
fn settle(a: u64, b: u64) -> u64
    ensures { result ≡ settled a b }
{
    // the kind stays a number: a first number alone is at hand, and `node_at` would ask for the second too
    if kind_of(a) == 2 {
        return 0;
    }
    if is_normal(a) { normal_of(b) } else { 0 }
}

// Node `used` becomes the variable.
pub fn make_variable(room: &mut [u64], used: usize, index: u64) -> usize
    requires { 2 * used + 2 ≤ length room.old }
    ensures { (result ≡ used + 1) × Same room.old room.new used
        × Holds room.new (var index) used }
{
    put(room, used, pack(1, 1, 1, index.min(UNKNOWN), 1), index)
}

// Node `used` becomes the abstraction whose body is another node.
pub fn make_abstraction(room: &mut [u64], used: usize, body: usize) -> usize
    requires { (body < used) × (2 * used + 2 ≤ length room.old) × (nodes_in (word room.old body) < 262143)
        × (height_in (word room.old body) < 1023) }
    ensures { (result ≡ used + 1) × Same room.old room.new used
        × ((t : Term) → Holds room.old t body → Holds room.new (lam t) used) }
{
    let w = room[2 * body];
    let facts = pack(
        2,
        nodes_of(w) + 1,
        height_of(w) + 1,
        lower(free_of(w)),
        normal_of(w),
    );
    put(room, used, facts, body as u64)
}

// Node `used` becomes the application of one node to another.
pub fn make_application(room: &mut [u64], used: usize, left: usize, right: usize) -> usize
    requires { (left < used) × (right < used) × (used < 4294967296) × (2 * used + 2 ≤ length room.old)
        × (nodes_in (word room.old left) + nodes_in (word room.old right) < 262143)
        × (max (height_in (word room.old left)) (height_in (word room.old right)) < 1023) }
    ensures { (result ≡ used + 1) × Same room.old room.new used
        × ((t u : Term) → Holds room.old t left → Holds room.old u right
        → Holds room.new (app t u) used) }
{
    let a = room[2 * left];
    let b = room[2 * right];
    let facts = pack(
        3,
        nodes_of(a) + nodes_of(b) + 1,
        height_of(a).max(height_of(b)) + 1,
        free_of(a).max(free_of(b)),
        settle(a, b),
    );
    put(room, used, facts, pair(left, right))
}

// The offset after a term that was loaded, and the number of the next node: the term is the node before it.
#[derive(Clone, Copy, Debug, PartialEq, Eq)]
pub struct Loaded {
    pub next: usize,
    pub used: usize,
}

// The term whose bytes stand at an offset, made of new nodes, parts before the whole.
pub fn load(s: &[u8], at: usize, room: &mut [u64], used: usize) -> Loaded
    requires { Loadable s.now at room.old used }
    ensures { Loads s.now at room.old used result room.new }
{
    // a term stands here
    match term::head_at(s, at).unwrap() {
        Head::Variable(index) => Loaded {
            next: at + 9,
            used: make_variable(room, used, index),
        },
        Head::Abstraction => {
            let body = load(s, at + 1, room, used);
            let top = body.used;
            Loaded {
                next: body.next,
                used: make_abstraction(room, top, top - 1),
            }
        }
        Head::Application => {
            let left = load(s, at + 1, room, used);
            let right = load(s, left.next, room, left.used);
            let top = right.used;
            Loaded {
                next: right.next,
                used: make_application(room, top, left.used - 1, top - 1),
            }
        }
    }
}

// The eight bytes of an index, low byte first; the place after them is returned.
pub fn put_index(out: &mut [u8], at: usize, index: u64) -> usize
    requires { at + 8 ≤ length out.old }
    ensures { Puts out.old at (digits 7 index) result out.new }
{
    out[at..at + 8].copy_from_slice(&index.to_le_bytes());
    at + 8
}

// The bytes of the term that a node is; the place after them is returned. Only left parts are calls.
// 1, 2 and 3 stay numbers: they are the coded bytes themselves, which C reads
pub fn save(room: &[u64], node: usize, out: &mut [u8], at: usize) -> usize
    requires { Savable room.now node out.old at }
    ensures { Saves room.now node out.old at result out.new }
{
    let mut here = node;
    let mut to = at;
    loop {
        match node_at(room, here) {
            Node::Variable(index) => {
                out[to] = 1;
                return put_index(out, to + 1, index);
            }
            Node::Abstraction(body) => {
                out[to] = 2;
                to += 1;
                here = body;
            }
            Node::Application(left, right) => {
                out[to] = 3;
                to = save(room, left, out, to + 1);
                here = right;
            }
        }
    }
}

// The first numbers of the room, eight for each node of a cap, become zero.
pub fn clear(room: &mut [u64], cap: usize)
    requires { (cap ≤ most_nodes) × (room_per_node * cap ≤ length room.old) }
    ensures { room.new ≡ cleared cap room.old }
{
    room[..ROOM_PER_NODE * cap].fill(0);
}
