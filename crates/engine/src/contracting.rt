// One contraction in its place: weighed before it is made, or made at once where that cannot go wrong.
ghost use Rattle.std.specs.Prelude.{◌≡◌};
ghost use Rattle.calculus.specs.Term.{Term};
ghost use Rattle.engine.specs.States.{lent, told};
ghost use Rattle.engine.specs.Contracting.{Redex, Contractible, Assured, Contracted};

use crate::{At, Stop, Work};
use calculus::MOST_HEIGHT;
use nodes::UNKNOWN;
use substitution::put_in;
use substitution::weighing::weigh;

// Each answers a node and why the run stops there, or 0, which is no node, and why nothing was contracted.
// stays a struct: a Result of the node goes through memory, and was slower in a small recursion of this shape

// No node, and why nothing was contracted.
fn stopped(stop: Stop) -> At
    ensures { result ≡ record { node = 0; stop = stop } }
{
    At { node: 0, stop }
}

// A contraction to at most so many nodes, judged before it is made. Room for the nodes above it is kept: each is made
// once more on the way out.
// its parameters stay apart, here and below: two nodes and two bounds that no other function is handed, no plainer
#[tactic(auto, using(crate::proofs::Weighed::weighings))]
fn contract_weighed(
    room: &mut [u64],
    work: &mut Work,
    body: usize,
    argument: usize,
    depth: u64,
    most: u64,
) -> At
    requires { (b : Term) × (a : Term)
        × Contractible b a depth most (lent work.old) body argument room.old }
    ensures { (b a : Term) → Contractible b a depth most (lent work.old) body argument room.old
        → Contracted b a depth (lent work.old) room.old (told result work.new) room.new }
{
    let weight = weigh(room, body, argument);
    if weight.bursts {
        return stopped(Stop::IndexTooGreat);
    }
    if MOST_HEIGHT < depth + weight.height {
        return stopped(Stop::TooHigh);
    }
    if most < weight.nodes {
        return stopped(Stop::TooManyNodes);
    }
    if room.len() / 2 < work.used + weight.nodes as usize + depth as usize {
        return stopped(Stop::Full);
    }
    let made = put_in(room, &mut work.used, body, 0, argument);
    work.budget -= 1;
    work.spare = most - weight.nodes;
    At {
        node: made,
        stop: Stop::Stepped,
    }
}

// The same where there is room whatever it comes to, and no index grows too great: made first, and judged by what its
// node says.
fn contract_at_once(
    room: &mut [u64],
    work: &mut Work,
    body: usize,
    argument: usize,
    depth: u64,
    most: u64,
) -> At
    requires { (b : Term) × (a : Term) × Assured b a depth most (lent work.old) body argument room.old }
    ensures { (b a : Term) → Assured b a depth most (lent work.old) body argument room.old
        → Contracted b a depth (lent work.old) room.old (told result work.new) room.new }
{
    let first = work.used;
    let made = put_in(room, &mut work.used, body, 0, argument);
    let w = room[2 * made];
    if MOST_HEIGHT < depth + nodes::height_of(w) {
        work.used = first;
        return stopped(Stop::TooHigh);
    }
    let size = nodes::nodes_of(w);
    if most < size {
        work.used = first;
        return stopped(Stop::TooManyNodes);
    }
    work.budget -= 1;
    work.spare = most - size;
    At {
        node: made,
        stop: Stop::Stepped,
    }
}

// The contraction of an abstraction applied to an argument, so deep in the whole term, or why it is not made. At most
// every second node of the body, and one more, is the argument's place.
pub(crate) fn contract(
    room: &mut [u64],
    work: &mut Work,
    function: usize,
    argument: usize,
    depth: u64,
) -> At
    requires { (b : Term) × (a : Term) × Redex b a depth (lent work.old) function argument room.old }
    ensures { (b a : Term) → Redex b a depth (lent work.old) function argument room.old
        → Contracted b a depth (lent work.old) room.old (told result work.new) room.new }
{
    if work.budget == 0 {
        return stopped(Stop::Spent);
    }
    let body = room[2 * function + 1] as usize;
    let w = room[2 * argument];
    let own = nodes::nodes_of(room[2 * body]);
    let each = nodes::nodes_of(w);
    let most = own + each + 2 + work.spare;
    if UNKNOWN <= nodes::free_of(w) {
        return contract_weighed(room, work, body, argument, depth, most);
    }
    let bound = own + (own + 1) / 2 * each;
    if room.len() / 2 < work.used + bound as usize + depth as usize {
        return contract_weighed(room, work, body, argument, depth, most);
    }
    contract_at_once(room, work, body, argument, depth, most)
}
