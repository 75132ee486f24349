// Eta of a coded term: the steps made, whether a place is left, and the bytes of the term reached.
#![tactic(auto)]

mod named;
mod naming;
mod shrinking;
mod writing;

ghost use Rattle.std.specs.Prelude.{◌≡◌, ◌≤◌, length, Ok};
ghost use Rattle.calculus.specs.Bounds.{most_height};
ghost use Rattle.calculus.specs.Eta.{eta};
ghost use Rattle.calculus.specs.Outcomes.{checked, run_on, stored_run, eta_of};
ghost use Rattle.nodes.specs.Answers.{run_told};
ghost use Rattle.nodes.specs.Lending.{Lent};
ghost use Rattle.nodes.specs.Working.{Works};
ghost use Rattle.eta.specs.Levelled.{Levelled};

use calculus::ROOM_PER_NODE;
use naming::load;
use nodes::lending::grant;
use nodes::runs::{End, Run, Stopped};
use shrinking::{Work, shrink};
use writing::write;

// One number for each binder that can be open at once, which are fewer than a term is high: no term is higher than
// 512, and most are no higher than 32.
const LEVELS: usize = 512;

const FEW_LEVELS: usize = 32;

// The steps, of an input that is a whole term within the bounds. They are never refused.
// Output and store stay apart, and `Lent` a clause: C lends two slices, and a struct for four calls is no plainer.
fn contract_places(
    cap: usize,
    limit: u64,
    s: &[u8],
    out: &mut [u8],
    store: &mut [u64],
    levels: &mut [u64],
) -> Run
    requires { Lent cap out.old store.old × Levelled cap s.now (length levels.old) }
    ensures { Works (stored_run (run_on (checked cap s.now) (eta limit)) out.old)
        store.old (run_told (Ok result)) out.new store.new }
{
    let read = load(s, 0, store, 0, levels, 0);
    let used = read.used;
    let mut work = Work { used, steps: 0 };
    let done = shrink(store, &mut work, used - 1, limit);
    let end = if done.left {
        End::Unfinished
    } else {
        End::Finished
    };
    let steps = work.steps;
    let length = write(store, done.node, out, 0, levels, 0);
    Run { end, steps, length }
}

// The same, with so many numbers of its own.
fn contract_within<const N: usize>(
    cap: usize,
    limit: u64,
    s: &[u8],
    out: &mut [u8],
    store: &mut [u64],
) -> Run
    requires { Lent cap out.old store.old × Levelled cap s.now N × (N ≤ most_height) }
    ensures { Works (stored_run (run_on (checked cap s.now) (eta limit)) out.old)
        store.old (run_told (Ok result)) out.new store.new }
{
    let mut levels = [0u64; N];
    contract_places(cap, limit, s, out, store, &mut levels)
}

// The same, of a term of this height: to clear 512 numbers would take as long as a good part of a short run.
fn contract_levels(
    cap: usize,
    limit: u64,
    s: &[u8],
    out: &mut [u8],
    store: &mut [u64],
    height: u64,
) -> Run
    requires { Lent cap out.old store.old × Levelled cap s.now height × (height ≤ most_height) }
    ensures { Works (stored_run (run_on (checked cap s.now) (eta limit)) out.old)
        store.old (run_told (Ok result)) out.new store.new }
{
    if height <= FEW_LEVELS as u64 {
        return contract_within::<FEW_LEVELS>(cap, limit, s, out, store);
    }
    contract_within::<LEVELS>(cap, limit, s, out, store)
}

// All that comes after OutsideBounds and TooLittleRoom: the input's refusals, then the steps.
fn work(cap: usize, limit: u64, s: &[u8], out: &mut [u8], store: &mut [u64]) -> Result<Run, Stopped>
    requires { Lent cap out.old store.old }
    ensures { Works (stored_run (run_on (checked cap s.now) (eta limit)) out.old)
        store.old (run_told result) out.new store.new }
{
    let facts = term::check(cap as u64, s)?;
    Ok(contract_levels(cap, limit, s, out, store, facts.height))
}

// OutsideBounds, TooLittleRoom, then the work, after which the room is cleared. Limit 0 is none, as C gives it.
// Grant, work and clear stay written out: a closure for the work would have to hold the output, no plainer.
pub fn eta(limit: u64, cap: u64, s: &[u8], out: &mut [u8], room: &mut [u64]) -> Result<Run, Stopped>
    ensures { (run_told result, out.new, room.new)
        ≡ eta_of limit cap s.now out.old room.old }
{
    let most = grant(cap, out.len(), room.len())?;
    let answer = work(most, limit, s, out, &mut room[..ROOM_PER_NODE * most]);
    nodes::clear(room, most);
    answer
}
