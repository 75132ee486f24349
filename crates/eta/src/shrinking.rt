// Eta's sequence of places on nodes that name their binders: a contraction drops an abstraction; nothing else moves.
ghost use Rattle.std.specs.Prelude.{◌≡◌, ◌+◌, ◌*◌, ◌≤◌, length};
ghost use Rattle.calculus.specs.Eta.{may_follow};
ghost use Rattle.eta.specs.Shrinks.{Shrinkable, Shrinks, Checkable, Contracts, Joinable, Joins};
ghost use Rattle.eta.specs.Shrinks.{KeptOrPut, Bindable, Rebinds, Binds, state};
ghost use Rattle.eta.specs.Store.{Packable};

use crate::named::{Binder, Node, named_at, put_named};

// What the sequence is lent as it goes: the number of the next node, and the steps made.
#[derive(Clone, Copy, Debug, PartialEq, Eq)]
pub(crate) struct Work {
    pub(crate) used: usize,
    pub(crate) steps: u64,
}

// The node that a term came to, and whether the limit left a place. Both are meant at once: an Option is no plainer.
#[derive(Clone, Copy, Debug, PartialEq, Eq)]
pub(crate) struct Shrunk {
    pub(crate) node: usize,
    pub(crate) left: bool,
}

// Whether one more step may follow. Limit 0 is none and stays a number: so C gives it, and `eta_of limit` has it.
fn may_follow(limit: u64, steps: u64) -> bool
    ensures { result ≡ may_follow limit steps }
{
    limit == 0 || steps < limit
}

// What is left of an abstraction with this body if it is a place: its binder is linear, and the body applies
// that to it.
fn contracted(room: &[u64], binder: Binder, body: usize) -> Option<usize>
    requires { Checkable room.now body }
    ensures { Contracts room.now binder body result }
{
    if !binder.linear {
        return None;
    }
    let Node::Application(applied, last) = named_at(room, body) else {
        return None;
    };
    if named_at(room, last) == Node::Bound(binder.level) {
        Some(applied)
    } else {
        None
    }
}

// A node whose parts are done: the same one if it says this already, and else a new one. It is inlined, since a call
// would pass the node through memory.
#[inline]
fn kept_or_put(room: &mut [u64], work: &mut Work, node: usize, made: Node, left: bool) -> Shrunk
    requires { (2 * node + 2 ≤ length room.old) × (2 * work.old.used + 2 ≤ length room.old) × Packable made }
    ensures { KeptOrPut room.old node made left work.old.used work.old.steps
        (state result work.new) room.new }
{
    if named_at(room, node) == made {
        return Shrunk { node, left };
    }
    let next = work.used;
    work.used = put_named(room, next, made);
    Shrunk { node: next, left }
}

// An application whose parts are done: the same node if both stayed.
fn join(room: &mut [u64], work: &mut Work, node: usize, first: Shrunk, second: Shrunk) -> Shrunk
    requires { Joinable room.old node first.node (state second work.old) }
    ensures { (w : Work) → Joins room.old node (state first w) (state second work.old)
        (state result work.new) room.new }
{
    let joined = Node::Application(first.node, second.node);
    let left = first.left || second.left;
    kept_or_put(room, work, node, joined, left)
}

// An abstraction that stays, whose body is done: the same node if the body stayed.
// Its parameters stay apart, as in `bind`: what is lent and a node that was read are not one thing, no plainer.
fn rebind(
    room: &mut [u64],
    work: &mut Work,
    node: usize,
    binder: Binder,
    body: Shrunk,
    left: bool,
) -> Shrunk
    requires { Bindable room.old node binder (state body work.old) }
    ensures { Rebinds room.old node binder (state body work.old) left (state result work.new) room.new }
{
    let bound = Node::Abstraction(binder, body.node);
    kept_or_put(room, work, node, bound, left)
}

// An abstraction whose body is done: contracted if it now may be.
fn bind(
    room: &mut [u64],
    work: &mut Work,
    node: usize,
    binder: Binder,
    body: Shrunk,
    limit: u64,
) -> Shrunk
    requires { Bindable room.old node binder (state body work.old) }
    ensures { Binds room.old node binder (state body work.old) limit (state result work.new) room.new }
{
    match contracted(room, binder, body.node) {
        None => rebind(room, work, node, binder, body, body.left),
        Some(applied) if may_follow(limit, work.steps) => {
            work.steps += 1;
            Shrunk {
                node: applied,
                left: body.left,
            }
        }
        Some(_) => rebind(room, work, node, binder, body, true),
    }
}

// At a node contract while possible; then do the parts, left first; then, at an abstraction, contract again.
pub(crate) fn shrink(room: &mut [u64], work: &mut Work, node: usize, limit: u64) -> Shrunk
    requires { Shrinkable room.old node work.old.used work.old.steps }
    ensures { Shrinks room.old node work.old.used work.old.steps limit (state result work.new) room.new }
{
    match named_at(room, node) {
        Node::Bound(_) | Node::Free(_) => Shrunk { node, left: false },
        Node::Application(left, right) => {
            let first = shrink(room, work, left, limit);
            let second = shrink(room, work, right, limit);
            join(room, work, node, first, second)
        }
        Node::Abstraction(binder, body) => match contracted(room, binder, body) {
            Some(applied) if may_follow(limit, work.steps) => {
                work.steps += 1;
                shrink(room, work, applied, limit)
            }
            _ => {
                let done = shrink(room, work, body, limit);
                bind(room, work, node, binder, done, limit)
            }
        },
    }
}
