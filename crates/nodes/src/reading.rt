// Coded bytes of which nothing is known, read once: nodes are made while the bytes are found to be a term.
ghost use Rattle.std.specs.Prelude.{◌≡◌, ◌+◌, ◌*◌, ◌≤◌, ◌<◌, length, IfSome, IfErr, IfOk};
ghost use Rattle.calculus.specs.Bounds.{most_nodes};
ghost use Rattle.calculus.specs.Refusal.{refused};
ghost use Rattle.calculus.specs.Outcomes.{checked};
ghost use Rattle.term.specs.Answers.{refusal_of};
ghost use Rattle.nodes.specs.Store.{Same};
ghost use Rattle.nodes.specs.Reading.{Readable, Reads, Taken};

use crate::{load, make_abstraction, make_application, make_variable};
use calculus::MOST_HEIGHT;
use term::{Head, Refusal};

// The term at an offset, no higher than so much, becomes nodes, of which there are at most `cap` in all. The offset
// after it is returned, if there is such a term.
// s and at stay apart: so `head_at` takes them, and a refusal tells the offset
#[tactic(auto, using(crate::proofs::Taking::reading))]
fn read(
    s: &[u8],
    at: usize,
    room: &mut [u64],
    used: &mut usize,
    cap: usize,
    height: u64,
) -> Option<usize>
    requires { Readable room.old used.old cap height }
    ensures { Reads s.now at room.old used.old cap height
        result used.new room.new }
{
    if height == 0 {
        return None;
    }
    if cap <= *used {
        return None;
    }
    match term::head_at(s, at)? {
        Head::Variable(index) => {
            *used = make_variable(room, *used, index);
            Some(at + 9)
        }
        Head::Abstraction => {
            let next = read(s, at + 1, room, used, cap - 1, height - 1)?;
            let body = *used;
            *used = make_abstraction(room, body, body - 1);
            Some(next)
        }
        Head::Application => {
            let middle = read(s, at + 1, room, used, cap - 1, height - 1)?;
            let left = *used;
            let next = read(s, middle, room, used, cap - 1, height - 1)?;
            let top = *used;
            *used = make_application(room, top, left - 1, top - 1);
            Some(next)
        }
    }
}

// All of an input as nodes behind those that are used. The number of the next node is returned, if the input is a term
// within the bounds: where it isn't, `term::check` tells why.
pub fn read_whole(cap: usize, s: &[u8], room: &mut [u64], used: usize) -> Option<usize>
    requires { (used + cap < 4 * most_nodes) × (2 * (used + cap) ≤ length room.old) }
    ensures same { Same room.old room.new used }
    ensures taken { IfSome result (λ next. Taken cap s.now used next room.new) }
{
    let mut top = used;
    let next = read(s, 0, room, &mut top, used + cap, MOST_HEIGHT)?;
    if next == s.len() { Some(top) } else { None }
}

// All of an input as nodes behind those that are used. The number of the next node is returned, or why the input is
// refused. What is read at once has no refusal, and is walked once in place of thrice.
pub fn load_checked(cap: usize, s: &[u8], room: &mut [u64], used: usize) -> Result<usize, Refusal>
    requires { (used + cap < 4 * most_nodes) × (2 * (used + cap) ≤ length room.old) }
    ensures same { Same room.old room.new used }
    ensures refuses { IfErr result (λ why. checked cap s.now ≡ refused (refusal_of why)) }
    ensures taken { IfOk result (λ next. Taken cap s.now used next room.new) }
{
    if let Some(next) = read_whole(cap, s, room, used) {
        return Ok(next);
    }
    term::check(cap as u64, s)?;
    Ok(load(s, 0, room, used).used)
}
