// Steps by an order in a part of a term, as deep as the part lies: the recursion stays where the work is.
// room, work, order, node and depth stay apart: what goes in registers would go through memory at each call
ghost use Rattle.calculus.specs.Term.{Term, lam, app};
ghost use Rattle.orders.specs.Orders.{order_of};
ghost use Rattle.engine.specs.States.{standing, lent, told};
ghost use Rattle.engine.specs.Running.{Start, started, Ready, Rested, Ran, RunsOn, Runs};
ghost use Rattle.engine.specs.Joining.{Here, Resting};

use crate::contracting::contract;
use crate::joining::{rebind, rejoin};
use crate::resting::at_rest;
use crate::{At, Stop, Work};
use nodes::Node;
use orders::Order;

// Steps in a part, and none where it is at rest: most parts are.
#[cycle(further_here_in_body_in_parts_rest_round_run_run_part)]
fn run_part(room: &mut [u64], work: &mut Work, order: Order, node: usize, depth: u64) -> At
    requires { (t : Term) × Ready t room.old depth (standing node work.old) }
    ensures { Runs (order_of order) room.old depth (standing node work.old) (told result work.new) room.new }
{
    if at_rest(order, room, node) {
        return At {
            node,
            stop: Stop::Rested,
        };
    }
    run(room, work, order, node, depth)
}

// Rounds until one does not end in a contraction here.
#[cycle(further_here_in_body_in_parts_rest_round_run_run_part)]
pub(crate) fn run(room: &mut [u64], work: &mut Work, order: Order, from: usize, depth: u64) -> At
    requires { (t : Term) × Ready t room.old depth (standing from work.old) }
    ensures { Runs (order_of order) room.old depth (standing from work.old) (told result work.new) room.new }
{
    let mut node = from;
    loop {
        let q = round(room, work, order, node, depth);
        if q.stop != Stop::Stepped {
            return q;
        }
        node = q.node;
    }
}

// Steps in the parts, by the order's traits, up to a contraction here.
#[cycle(further_here_in_body_in_parts_rest_round_run_run_part)]
fn round(room: &mut [u64], work: &mut Work, order: Order, node: usize, depth: u64) -> At
    requires { (t : Term) × Ready t room.old depth (standing node work.old) }
    ensures { (t : Term)
        → RunsOn (order_of order) t room.old depth (standing node work.old) (told result work.new) room.new }
{
    if nodes::is_normal(room[2 * node]) {
        return At {
            node,
            stop: Stop::Rested,
        };
    }
    match nodes::node_at(room, node) {
        Node::Variable(_) => At {
            node,
            stop: Stop::Rested,
        },
        Node::Abstraction(_) => in_body(room, work, order, node, depth),
        Node::Application(_, _) => in_parts(room, work, order, node, depth),
    }
}

// In an abstraction.
#[cycle(further_here_in_body_in_parts_rest_round_run_run_part)]
fn in_body(room: &mut [u64], work: &mut Work, order: Order, whole: usize, depth: u64) -> At
    requires { (b : Term) × Ready (lam b) room.old depth (standing whole work.old) }
    ensures { (b : Term)
        → RunsOn (order_of order) (lam b) room.old depth (standing whole work.old) (told result work.new) room.new }
{
    if !order.enters_bodies() {
        return At {
            node: whole,
            stop: Stop::Rested,
        };
    }
    let body = room[2 * whole + 1] as usize;
    let b = run_part(room, work, order, body, depth + 1);
    rebind(room, work, whole, b)
}

// In an application: the function part by the spine's order, then the argument if the order is eager.
#[cycle(further_here_in_body_in_parts_rest_round_run_run_part)]
fn in_parts(room: &mut [u64], work: &mut Work, order: Order, whole: usize, depth: u64) -> At
    requires { (l : Term) × (r : Term) × Ready (app l r) room.old depth (standing whole work.old) }
    ensures { (l r : Term)
        → RunsOn (order_of order) (app l r) room.old depth (standing whole work.old) (told result work.new) room.new }
{
    let x = room[2 * whole + 1];
    let right = nodes::right_of(x);
    let p = run_part(room, work, order.spine(), nodes::left_of(x), depth + 1);
    if p.stop != Stop::Rested {
        return rejoin(room, work, p.stop, whole, p.node, right);
    }
    if !order.is_eager() {
        return here(room, work, order, whole, p.node, right, depth);
    }
    let q = run_part(room, work, order, right, depth + 1);
    if q.stop != Stop::Rested {
        return rejoin(room, work, q.stop, whole, p.node, q.node);
    }
    here(room, work, order, whole, p.node, q.node, depth)
}

// Once the spine's order rests in the function part, and an eager order in the argument.
#[cycle(further_here_in_body_in_parts_rest_round_run_run_part)]
fn here(
    room: &mut [u64],
    work: &mut Work,
    order: Order,
    whole: usize,
    left: usize,
    right: usize,
    depth: u64,
) -> At
    requires { (a : Start) × (l : Term) × (r : Term)
        × Here (order_of order) depth a l r whole left right (lent work.old) room.old }
    ensures { (a : Start) (l r : Term)
        → Here (order_of order) depth a l r whole left right (lent work.old) room.old
        → Ran (order_of order) depth a (told result work.new) room.new }
{
    if let Node::Abstraction(_) = nodes::node_at(room, left) {
        let c = contract(room, work, left, right, depth);
        if c.stop == Stop::Stepped {
            return c;
        }
        return rejoin(room, work, c.stop, whole, left, right);
    }
    if order.is_hybrid() {
        return rest(room, work, order, whole, left, right, depth);
    }
    rejoin(room, work, Stop::Rested, whole, left, right)
}

// A hybrid order, where its spine's order rests: it then rests in the function part, which is no abstraction, and if it
// is eager in the argument too. So there is no contraction here, and the spine's order is not asked again.
#[cycle(further_here_in_body_in_parts_rest_round_run_run_part)]
fn further(room: &mut [u64], work: &mut Work, order: Order, whole: usize, depth: u64) -> At
    requires { (t : Term) × Rested (order_of order) t room.old depth (standing whole work.old) }
    ensures { (t : Term) → Rested (order_of order) t room.old depth (standing whole work.old)
        → Ran (order_of order) depth (started t (standing whole work.old) room.old) (told result work.new) room.new }
{
    if at_rest(order, room, whole) {
        return At {
            node: whole,
            stop: Stop::Rested,
        };
    }
    let Node::Application(left, right) = nodes::node_at(room, whole) else {
        return round(room, work, order, whole, depth);
    };
    if !order.is_eager() {
        return rest(room, work, order, whole, left, right, depth);
    }
    let q = further(room, work, order, right, depth + 1);
    if q.stop != Stop::Rested {
        return rejoin(room, work, q.stop, whole, left, q.node);
    }
    rest(room, work, order, whole, left, q.node, depth)
}

// What is left to a hybrid order: the function part, and then the argument if the order is late.
#[cycle(further_here_in_body_in_parts_rest_round_run_run_part)]
fn rest(
    room: &mut [u64],
    work: &mut Work,
    order: Order,
    whole: usize,
    left: usize,
    right: usize,
    depth: u64,
) -> At
    requires { (a : Start) × (l : Term) × (r : Term)
        × Resting (order_of order) depth a l r whole left right (lent work.old) room.old }
    ensures { (a : Start) (l r : Term)
        → Resting (order_of order) depth a l r whole left right (lent work.old) room.old
        → Ran (order_of order) depth a (told result work.new) room.new }
{
    let p = further(room, work, order, left, depth + 1);
    if p.stop != Stop::Rested {
        return rejoin(room, work, p.stop, whole, p.node, right);
    }
    if !order.is_late() {
        return rejoin(room, work, Stop::Rested, whole, p.node, right);
    }
    let q = run_part(room, work, order, right, depth + 1);
    rejoin(room, work, q.stop, whole, p.node, q.node)
}
