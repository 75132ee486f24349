// Reducing a coded term by an order: how the steps end, and the bytes of the term reached.
ghost use Rattle.std.specs.Prelude.{◌≡◌};
ghost use Rattle.calculus.specs.Term.{Term};
ghost use Rattle.calculus.specs.Judging.{judge};
ghost use Rattle.calculus.specs.Runs.{run};
ghost use Rattle.calculus.specs.Outcomes.{stored_run, limit_allowed, reduced};
ghost use Rattle.nodes.specs.Answers.{run_told};
ghost use Rattle.nodes.specs.Lending.{Lent};
ghost use Rattle.nodes.specs.Working.{Works};
ghost use Rattle.orders.specs.Orders.{order_of};
ghost use Rattle.engine.specs.Stepping.{Steppable};
ghost use Rattle.reduction.specs.Answers.{Reduces};

use calculus::{MOST_STEPS, ROOM_PER_NODE};
use nodes::lending::grant;
use nodes::reading::load_checked;
use nodes::runs::{Run, Stopped};
use orders::Order;
use term::Refusal;

// The steps of the term that the last of so many nodes is, and the bytes of the term that they reach.
#[tactic(auto, using(crate::proofs::Reductions::stepping))]
fn step_on(
    cap: usize,
    order: Order,
    limit: u64,
    out: &mut [u8],
    store: &mut [u64],
    used: usize,
) -> Result<Run, Stopped>
    requires { Lent cap out.old store.old × ((t : Term) × Steppable t cap store.old used) }
    ensures { (t : Term) → Steppable t cap store.old used
        → Works (stored_run (run (judge cap) (order_of order) limit t) out.old)
        store.old (run_told result) out.new store.new }
{
    let reached = engine::steps(cap, order, limit, store, used)?;
    let length = nodes::save(store, reached.node, out, 0);
    Ok(Run {
        end: reached.end,
        steps: reached.steps,
        length,
    })
}

// All that comes after OutsideBounds and TooLittleRoom: the input's refusals, then the steps.
fn work(
    cap: usize,
    order: Order,
    limit: u64,
    s: &[u8],
    out: &mut [u8],
    store: &mut [u64],
) -> Result<Run, Stopped>
    requires { Lent cap out.old store.old }
    ensures { Works (stored_run (reduced (order_of order) limit cap s.now) out.old)
        store.old (run_told result) out.new store.new }
{
    let used = load_checked(cap, s, store, 0)?;
    step_on(cap, order, limit, out, store, used)
}

// Whether a limit is within its bounds.
pub fn allowed(limit: u64) -> bool
    ensures { result ≡ limit_allowed limit }
{
    (1..=MOST_STEPS).contains(&limit)
}

// OutsideBounds, TooLittleRoom, then the work, after which the room is cleared.
// stays beside `apply`: the work as a closure would have to hold the output, which is no plainer
pub fn reduce(
    order: Order,
    limit: u64,
    cap: u64,
    s: &[u8],
    out: &mut [u8],
    room: &mut [u64],
) -> Result<Run, Stopped>
    ensures { Reduces order limit cap s.now out.old room.old
        result out.new room.new }
{
    if !allowed(limit) {
        return Err(Stopped::from(Refusal::OutsideBounds));
    }
    let most = grant(cap, out.len(), room.len())?;
    let answer = work(
        most,
        order,
        limit,
        s,
        out,
        &mut room[..ROOM_PER_NODE * most],
    );
    nodes::clear(room, most);
    answer
}
