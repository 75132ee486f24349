// A term made anew when the room is full: copied behind the nodes, then moved to be the first of them.
ghost use Rattle.calculus.specs.Term.{Term};
ghost use Rattle.engine.specs.Moving.{Copiable, Copies, Movable, Moves};

use nodes::Node;

// Of the store's eight numbers for each node of the cap, the first six are nodes. The last two hold a term that moves.
pub(crate) const FIRST: usize = 6;

// The term of a node, copied to nodes that are counted from a base. The number of the next one is returned.
#[tactic(auto, using(crate::proofs::Renewing::copying))]
pub(crate) fn copy(store: &mut [u64], node: usize, base: usize, used: usize) -> usize
    requires { (t : Term) × Copiable t store.old node base used }
    ensures { (t : Term) → Copiable t store.old node base used
        → Copies t store.old base used result store.new }
{
    let w = store[2 * node];
    match nodes::node_at(store, node) {
        Node::Variable(index) => nodes::put(store, base + used, w, index) - base,
        Node::Abstraction(b) => {
            let top = copy(store, b, base, used);
            nodes::put(store, base + top, w, (top - 1) as u64) - base
        }
        Node::Application(l, r) => {
            let middle = copy(store, l, base, used);
            let top = copy(store, r, base, middle);
            nodes::put(store, base + top, w, nodes::pair(middle - 1, top - 1)) - base
        }
    }
}

// So many nodes from a base on become the first nodes.
pub(crate) fn move_down(store: &mut [u64], base: usize, count: usize)
    requires { Movable store.old base count }
    ensures { Moves store.old base count store.new }
{
    store.copy_within(2 * base..2 * (base + count), 0);
}
