// Steps by an order on a term of numbered nodes: where the work is, under a budget, each next term judged.
#![tactic(auto)]

mod contracting;
mod joining;
mod moving;
mod resting;
mod rounds;

ghost use Rattle.std.specs.Prelude.{◌≡◌, ◌-◌};
ghost use Rattle.calculus.specs.Term.{Term, nodes};
ghost use Rattle.orders.specs.Orders.{order_of};
ghost use Rattle.engine.specs.States.{State, standing, told, restarted};
ghost use Rattle.engine.specs.Stepping.{Rooted, RunsFirst, Renewed, Ended, Steppable, Steps};

use nodes::runs::{End, Stopped};
use orders::Order;
use term::Refusal;

// How the steps end: how many were made, and the node of the term reached.
// stays beside Run, which tells the bytes: one type for both would name its last field no better
#[derive(Clone, Copy, Debug, PartialEq, Eq)]
pub struct Reached {
    pub end: End,
    pub steps: u64,
    pub node: usize,
}

// Why a run stops: no step is left; a contraction was made here; a step is left, and the budget is spent; the room is
// full; or the next term is refused.
// stays an enum with three refusals of its own: a Refusal in a case takes three words, and the answer goes in registers
#[derive(Clone, Copy, Debug, PartialEq, Eq)]
pub(crate) enum Stop {
    Rested,
    Stepped,
    Spent,
    Full,
    TooHigh,
    TooManyNodes,
    IndexTooGreat,
}

// The node that a part has become, and why the run stops there; where nothing was contracted, no node: 0.
// stays a struct: node and reason are told together, and a Result of both goes through memory
#[derive(Clone, Copy, Debug, PartialEq, Eq)]
pub(crate) struct At {
    pub(crate) node: usize,
    pub(crate) stop: Stop,
}

// What a run has, lent down the recursion: the number of the next node, the steps that may still be made, and the nodes
// by which the whole term may still grow.
#[derive(Clone, Copy, Debug, PartialEq, Eq)]
pub(crate) struct Work {
    pub(crate) used: usize,
    pub(crate) budget: u64,
    pub(crate) spare: u64,
}

// Rounds in the store's first part, at the root.
fn run_first(cap: usize, order: Order, store: &mut [u64], work: &mut Work, node: usize) -> At
    requires { (t : Term) × Rooted t cap (standing node work.old) store.old }
    ensures { (t : Term) → Rooted t cap (standing node work.old) store.old
        → RunsFirst (order_of order) t cap (standing node work.old) store.old (told result work.new) store.new }
{
    rounds::run(&mut store[..moving::FIRST * cap], work, order, node, 0)
}

// The term of a node made anew as the first nodes, so that all others are free; how many they are.
fn renew(cap: usize, node: usize, store: &mut [u64]) -> usize
    requires { (t : Term) × (s : State) × (s.node ≡ node) × Rooted t cap s store.old }
    ensures { (t : Term) (s : State) → s.node ≡ node → Rooted t cap s store.old
        → Renewed t cap s (restarted s result) store.new }
{
    let base = moving::FIRST / 2 * cap;
    let used = moving::copy(store, node, base, 0);
    moving::move_down(store, base, used);
    used
}

// Steps until one of the ends; where the room is full, the term is made anew and the work goes on.
fn run_all(cap: usize, order: Order, store: &mut [u64], work: &mut Work) -> At
    requires { (t : Term) × Rooted t cap (standing (work.old.used - 1) work.old) store.old
        × (work.old.used ≡ nodes t) }
    ensures { (t : Term) → Rooted t cap (standing (work.old.used - 1) work.old) store.old
        → work.old.used ≡ nodes t
        → Ended (order_of order) t cap (standing (work.old.used - 1) work.old) (told result work.new)
        store.old store.new }
{
    loop {
        let q = run_first(cap, order, store, work, work.used - 1);
        if q.stop != Stop::Full {
            return q;
        }
        work.used = renew(cap, q.node, store);
    }
}

// At most so many steps, of the term that is the last of so many nodes.
// the order stays a value: as a type parameter it would be seven copies of the engine, no plainer
pub fn steps(
    cap: usize,
    order: Order,
    limit: u64,
    store: &mut [u64],
    from: usize,
) -> Result<Reached, Stopped>
    requires { (t : Term) × Steppable t cap store.old from }
    ensures { (t : Term) → Steppable t cap store.old from
        → Steps (order_of order) t limit cap store.old result store.new }
{
    let mut work = Work {
        used: from,
        budget: limit,
        spare: (cap - from) as u64,
    };
    let end = run_all(cap, order, store, &mut work);
    let steps = limit - work.budget;
    let node = end.node;
    match end.stop {
        Stop::Rested => Ok(Reached {
            end: End::Finished,
            steps,
            node,
        }),
        Stop::Spent => Ok(Reached {
            end: End::Unfinished,
            steps,
            node,
        }),
        Stop::TooHigh => Err(Stopped {
            steps,
            why: Refusal::TooHigh,
        }),
        Stop::TooManyNodes => Err(Stopped {
            steps,
            why: Refusal::TooManyNodes,
        }),
        Stop::IndexTooGreat => Err(Stopped {
            steps,
            why: Refusal::IndexTooGreat,
        }),
        Stop::Stepped | Stop::Full => unreachable!(),
    }
}
