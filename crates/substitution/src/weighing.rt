// What a contraction will give, before anything is written: its height, its nodes and whether an index grows too great.
ghost use Rattle.std.specs.Prelude.{◌≡◌};
ghost use Rattle.substitution.specs.Weighing.{Measurable, Measures, Overflowable, Overflows, Occurring, Bursts};
ghost use Rattle.substitution.specs.Weighing.{Weighable, Weighs};

use calculus::GREATEST_NUMBER;
use nodes::{Node, UNKNOWN};

// How often the argument is put in, the greatest depth at which it is (0 for none), and the height afterwards.
// `deepest` stays a number: as an Option, a fourth word, it made a copy of the walk in Rust a tenth slower
#[derive(Clone, Copy, Debug, PartialEq, Eq)]
struct Measured {
    copies: u64,
    deepest: u64,
    height: u64,
}

// Where the argument is not put in.
fn nowhere(height: u64) -> Measured
    ensures { result ≡ record { copies = 0; deepest = 0; height = height } }
{
    Measured {
        copies: 0,
        deepest: 0,
        height,
    }
}

// Of a term under so many binders, for an argument of some height.
fn measure(room: &[u64], node: usize, depth: u64, height: u64) -> Measured
    requires { Measurable room.now node depth height }
    ensures { Measures room.now node depth height result }
{
    let w = room[2 * node];
    if nodes::free_of(w) <= depth {
        return nowhere(nodes::height_of(w));
    }
    match nodes::node_at(room, node) {
        Node::Variable(index) => {
            if index == depth + 1 {
                return Measured {
                    copies: 1,
                    deepest: index,
                    height,
                };
            }
            nowhere(1)
        }
        Node::Abstraction(b) => {
            let body = measure(room, b, depth + 1, height);
            Measured {
                copies: body.copies,
                deepest: body.deepest,
                height: body.height + 1,
            }
        }
        Node::Application(l, r) => {
            let left = measure(room, l, depth, height);
            let right = measure(room, r, depth, height);
            Measured {
                copies: left.copies + right.copies,
                deepest: left.deepest.max(right.deepest),
                height: left.height.max(right.height) + 1,
            }
        }
    }
}

// Whether raising takes an index of the node's term past the greatest number: a bound below 1023 rules it out.
fn overflows(room: &[u64], node: usize, amount: u64, depth: u64) -> bool
    requires { Overflowable room.now node amount depth }
    ensures { Overflows room.now node amount depth result }
{
    let w = room[2 * node];
    if nodes::free_of(w) < UNKNOWN {
        return false;
    }
    match nodes::node_at(room, node) {
        Node::Variable(index) => depth < index && GREATEST_NUMBER - amount < index,
        Node::Abstraction(b) => overflows(room, b, amount, depth + 1),
        Node::Application(l, r) => {
            overflows(room, l, amount, depth) || overflows(room, r, amount, depth)
        }
    }
}

// Whether an argument that is put in takes an index past the greatest number: where it is put deepest, or nowhere.
fn bursts(room: &[u64], argument: usize, deepest: u64) -> bool
    requires { Occurring room.now argument deepest }
    ensures { Bursts room.now argument deepest result }
{
    0 < deepest && overflows(room, argument, deepest - 1, 0)
}

// What a contraction gives: how often the argument is put in, whether an index grows past the greatest number, the
// height, the nodes.
// `bursts` stays a flag beside the measures: they are right whether it is set or not, and an Option would say less
#[derive(Clone, Copy, Debug, PartialEq, Eq)]
pub struct Weight {
    pub copies: u64,
    pub bursts: bool,
    pub height: u64,
    pub nodes: u64,
}

// Of the contraction of an abstraction with this body.
pub fn weigh(room: &[u64], body: usize, argument: usize) -> Weight
    requires { Weighable room.now body argument }
    ensures { Weighs room.now body argument result }
{
    let w = room[2 * argument];
    let found = measure(room, body, 0, nodes::height_of(w));
    let copies = found.copies;
    let height = found.height;
    let left = nodes::nodes_of(room[2 * body]) - copies;
    let bursts = bursts(room, argument, found.deepest);
    let nodes = left + copies * nodes::nodes_of(w);
    Weight {
        copies,
        bursts,
        height,
        nodes,
    }
}
