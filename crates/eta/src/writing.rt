// The bytes of a named term: each variable's index is counted from its binder among those that stayed.
ghost use Rattle.std.specs.Prelude.{◌+◌, ◌≤◌, length};
ghost use Rattle.calculus.specs.Term.{var};
ghost use Rattle.calculus.specs.Bytes.{encode};
ghost use Rattle.calculus.proofs.Putting.{Puts};
ghost use Rattle.eta.specs.Writing.{Writable, Writes};

use crate::named::{Node, named_at};

// Kind 1 and the eight bytes of the index. The kinds stay numbers here and below: they are the coded bytes themselves.
// It stays this crate's own, though `nodes::save` has the like: two lines, no plainer as one more public function.
fn write_variable(out: &mut [u8], at: usize, index: u64) -> usize
    requires { at + 9 ≤ length out.old }
    ensures { Puts out.old at (encode (var index)) result out.new }
{
    out[at] = 1;
    nodes::put_index(out, at + 1, index)
}

// The term that a node is, under so many binders; the place after its bytes is returned.
pub(crate) fn write(
    room: &[u64],
    node: usize,
    out: &mut [u8],
    at: usize,
    places: &mut [u64],
    depth: u64,
) -> usize
    requires { Writable room.now node out.old at places.old depth }
    ensures { Writes room.now node out.old at places.old depth result
        out.new places.new }
{
    match named_at(room, node) {
        Node::Bound(level) => write_variable(out, at, depth - places[level]),
        Node::Free(0) => write_variable(out, at, 0),
        Node::Free(number) => write_variable(out, at, number + depth),
        Node::Abstraction(binder, body) => {
            out[at] = 2;
            places[binder.level] = depth;
            write(room, body, out, at + 1, places, depth + 1)
        }
        Node::Application(left, right) => {
            out[at] = 3;
            let next = write(room, left, out, at + 1, places, depth);
            write(room, right, out, next, places, depth)
        }
    }
}
