// A node whose parts may have changed, made again only if they did.
// one part or two: they stay two functions, since a part less is another law
ghost use Rattle.std.specs.Prelude.{◌≡◌, ℕ};
ghost use Rattle.calculus.specs.Term.{Term, lam, app};
ghost use Rattle.engine.specs.Running.{Start};
ghost use Rattle.engine.specs.States.{told};
ghost use Rattle.engine.specs.Joining.{Body, Parts, Joined};

use crate::{At, Stop, Work};

// The abstraction, whose body is now the answer's node.
pub(crate) fn rebind(room: &mut [u64], work: &mut Work, whole: usize, answer: At) -> At
    requires { (steps : ℕ) × (depth : ℕ) × (a : Start) × (b : Term)
        × Body steps depth a b (told answer work.old) room.old × (whole ≡ a.node) }
    ensures { (steps depth : ℕ) (a : Start) (b : Term)
        → Body steps depth a b (told answer work.old) room.old → whole ≡ a.node
        → Joined steps depth a (lam b) (told answer work.old) (told result work.new) room.new }
{
    let At { node: body, stop } = answer;
    if room[2 * whole + 1] as usize == body {
        return At { node: whole, stop };
    }
    let at = work.used;
    work.used = nodes::make_abstraction(room, at, body);
    At { node: at, stop }
}

// The application, whose parts are now these, and why the run stops.
// its parameters stay apart, as in the rounds that call it
pub(crate) fn rejoin(
    room: &mut [u64],
    work: &mut Work,
    stop: Stop,
    whole: usize,
    left: usize,
    right: usize,
) -> At
    requires { (steps : ℕ) × (depth : ℕ) × (a : Start) × (l : Term) × (r : Term)
        × Parts steps depth a l r left right work.old.used room.old × (whole ≡ a.node) }
    ensures { (p : At) → p.stop ≡ stop → (steps depth : ℕ) (a : Start) (l r : Term)
        → Parts steps depth a l r left right work.old.used room.old → whole ≡ a.node
        → Joined steps depth a (app l r) (told p work.old) (told result work.new) room.new }
{
    if room[2 * whole + 1] == nodes::pair(left, right) {
        return At { node: whole, stop };
    }
    let at = work.used;
    work.used = nodes::make_application(room, at, left, right);
    At { node: at, stop }
}
