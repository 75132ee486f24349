// Contraction over shared nodes: free indices raised, the argument put in, and what the result will measure.
#![tactic(auto)]

pub mod weighing;

ghost use Rattle.std.specs.Prelude.{◌≡◌, ◌≤◌};
ghost use Rattle.substitution.specs.Raising.{lifted, made, Raisable, Raises};
ghost use Rattle.substitution.specs.Placing.{Placeable, Places};

use nodes::{FREE, Node, UNKNOWN};

// A first number once free indices are raised: only the bound on them moves, as far as it can be told.
fn lift(w: u64, amount: u64) -> u64
    requires { amount ≤ 1022 }
    ensures { result ≡ lifted w amount }
{
    let free = nodes::free_of(w);
    if free + amount < UNKNOWN {
        w + FREE * amount
    } else {
        w + FREE * (UNKNOWN - free)
    }
}

// The free indices raised, of a term under so many binders of its own: the node that it becomes. A part in which
// nothing moves is shared.
pub fn raise(room: &mut [u64], used: &mut usize, node: usize, amount: u64, depth: u64) -> usize
    requires { Raisable room.old used.old node amount depth }
    ensures { Raises room.old used.old node amount depth
        (made result used.new) room.new }
{
    let w = room[2 * node];
    if nodes::free_of(w) <= depth {
        return node;
    }
    match nodes::node_at(room, node) {
        Node::Variable(index) => {
            if index <= depth {
                return node;
            }
            let at = *used;
            *used = nodes::make_variable(room, at, index + amount);
            at
        }
        Node::Abstraction(b) => {
            let body = raise(room, used, b, amount, depth + 1);
            let at = *used;
            *used = nodes::put(room, at, lift(w, amount), body as u64);
            at
        }
        Node::Application(l, r) => {
            let left = raise(room, used, l, amount, depth);
            let right = raise(room, used, r, amount, depth);
            let at = *used;
            *used = nodes::put(room, at, lift(w, amount), nodes::pair(left, right));
            at
        }
    }
}

// The argument put in, in a term under so many binders: the node that it becomes. A part in which nothing moves is
// shared.
pub fn put_in(room: &mut [u64], used: &mut usize, node: usize, depth: u64, argument: usize) -> usize
    requires { Placeable room.old used.old node depth argument }
    ensures { Places room.old used.old node depth argument
        (made result used.new) room.new }
{
    let w = room[2 * node];
    if nodes::free_of(w) <= depth {
        return node;
    }
    match nodes::node_at(room, node) {
        Node::Variable(index) => {
            if index <= depth {
                return node;
            }
            if index == depth + 1 {
                if depth == 0 {
                    return argument;
                }
                return raise(room, used, argument, depth, 0);
            }
            let at = *used;
            *used = nodes::make_variable(room, at, index - 1);
            at
        }
        Node::Abstraction(b) => {
            let body = put_in(room, used, b, depth + 1, argument);
            let at = *used;
            *used = nodes::make_abstraction(room, at, body);
            at
        }
        Node::Application(l, r) => {
            let left = put_in(room, used, l, depth, argument);
            let right = put_in(room, used, r, depth, argument);
            let at = *used;
            *used = nodes::make_application(room, at, left, right);
            at
        }
    }
}
