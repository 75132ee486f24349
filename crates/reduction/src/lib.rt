// Applying one coded term to another: the answer is the bytes of the contraction, or why there is none.
#![tactic(auto)]

pub mod reducing;

ghost use Rattle.std.specs.Prelude.{◌≡◌};
ghost use Rattle.calculus.specs.Refusal.{◌then◌};
ghost use Rattle.calculus.specs.Outcomes.{stored, coded, applied, apply_of};
ghost use Rattle.term.specs.Answers.{told};
ghost use Rattle.nodes.specs.Lending.{Lent};
ghost use Rattle.nodes.specs.Working.{Works};
ghost use Rattle.reduction.specs.Applying.{Contractible, Contracts};

use calculus::{MOST_HEIGHT, ROOM_PER_NODE};
use nodes::Node;
use nodes::lending::grant;
use nodes::reading::load_checked;
use substitution::put_in;
use substitution::weighing::weigh;
use term::Refusal;

// IndexTooGreat, TooHigh, then TooManyNodes, of the contraction with this body; its bytes, if it is within the bounds.
// stays beside the engine's tests: there the depth counts too, and the answer is a Stop, which goes in registers
#[tactic(auto, using(crate::proofs::Contracting::contractions))]
fn contract(
    cap: usize,
    store: &mut [u64],
    used: usize,
    body: usize,
    argument: usize,
    out: &mut [u8],
) -> Result<usize, Refusal>
    requires { Contractible cap store.old used body argument out.old }
    ensures { Contracts cap store.old body argument out.old result
        store.new out.new }
{
    let weight = weigh(store, body, argument);
    if weight.bursts {
        return Err(Refusal::IndexTooGreat);
    }
    if MOST_HEIGHT < weight.height {
        return Err(Refusal::TooHigh);
    }
    if (cap as u64) < weight.nodes {
        return Err(Refusal::TooManyNodes);
    }
    let mut top = used;
    let made = put_in(store, &mut top, body, 0, argument);
    Ok(nodes::save(store, made, out, 0))
}

// All that comes after OutsideBounds and TooLittleRoom: the abstraction's refusals, the argument's, NotAbs, then the
// contraction.
// cap, out and store stay apart, here and in `reducing`: each is passed on as it is lent, and a struct is no plainer
#[tactic(auto, using(crate::proofs::ReadInputs::reading))]
fn work(cap: usize, s: &[u8], u: &[u8], out: &mut [u8], store: &mut [u64]) -> Result<usize, Refusal>
    requires { Lent cap out.old store.old }
    ensures { Works (stored (applied cap s.now u.now then coded) out.old)
        store.old (told result) out.new store.new }
{
    let top = load_checked(cap, s, store, 0)?;
    let used = load_checked(cap, u, store, top)?;
    let root = top - 1;
    let argument = used - 1;
    if let Node::Abstraction(body) = nodes::node_at(store, root) {
        return contract(cap, store, used, body, argument, out);
    }
    Err(Refusal::NotAbs)
}

// OutsideBounds, TooLittleRoom, then the work, after which the room is cleared.
// stays beside `reduce`: the work as a closure would have to hold the output, which is no plainer
pub fn apply(
    cap: u64,
    s: &[u8],
    u: &[u8],
    out: &mut [u8],
    room: &mut [u64],
) -> Result<usize, Refusal>
    ensures { (told result, out.new, room.new)
        ≡ apply_of cap s.now u.now out.old room.old }
{
    let most = grant(cap, out.len(), room.len())?;
    let answer = work(most, s, u, out, &mut room[..ROOM_PER_NODE * most]);
    nodes::clear(room, most);
    answer
}
