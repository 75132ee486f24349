// What a node alone tells: that an order does nothing there.
ghost use Rattle.std.specs.Prelude.{◌≡◌, ◌+◌, ◌*◌, ◌≤◌, true, length};
ghost use Rattle.nodes.specs.Store.{word};
ghost use Rattle.orders.specs.Orders.{order_of};
ghost use Rattle.engine.specs.Running.{Rests};

use nodes::Node;
use orders::Order;

// Whether a node tells that it is at rest: it is normal, or the order does not enter it.
#[tactic(auto, using(crate::proofs::AtRest::resting))]
pub(crate) fn at_rest(order: Order, room: &[u64], node: usize) -> bool
    requires { 2 * node + 2 ≤ length room.now }
    ensures { result ≡ true → Rests (order_of order) (word room.now node) }
{
    if nodes::is_normal(room[2 * node]) {
        return true;
    }
    match nodes::node_at(room, node) {
        Node::Variable(_) => true,
        Node::Abstraction(_) => !order.enters_bodies(),
        Node::Application(_, _) => false,
    }
}
