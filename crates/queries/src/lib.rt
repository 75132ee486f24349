// The queries of a whole term: each takes any bytes, and answers or refuses by NotATerm, TooHigh, then TooManyNodes.
#![tactic(auto)]

ghost use Rattle.std.specs.Prelude.{◌≡◌};
ghost use Rattle.calculus.specs.Outcomes.{nodes_of, height_of, max_depth_of, max_free_index_of};
ghost use Rattle.calculus.specs.Outcomes.{has_free_variables_of, is_supercombinator_of, equality_of};
ghost use Rattle.term.specs.Surveys.{Begins};
ghost use Rattle.term.specs.Answers.{told};
ghost use Rattle.queries.specs.Comparing.{Low, Compares};

use calculus::{MOST_HEIGHT, MOST_NODES};
use term::{Head, Refusal};

// The five that ask one field stay apart: public names, and a closure that picks the field is no plainer.

// How many variables, abstractions and applications there are.
#[tactic(auto, using(crate::proofs::Asking::nodes_asked))]
pub fn nodes(s: &[u8]) -> Result<u64, Refusal>
    ensures { told result ≡ nodes_of s.now }
{
    Ok(term::check(MOST_NODES, s)?.nodes)
}

// One for a variable, and one more than the taller part for any other node.
#[tactic(auto, using(crate::proofs::Asking::height_asked))]
pub fn height(s: &[u8]) -> Result<u64, Refusal>
    ensures { told result ≡ height_of s.now }
{
    Ok(term::check(MOST_NODES, s)?.height)
}

// The most abstractions on a path.
#[tactic(auto, using(crate::proofs::Asking::depth_asked))]
pub fn max_depth(s: &[u8]) -> Result<u64, Refusal>
    ensures { told result ≡ max_depth_of s.now }
{
    Ok(term::check(MOST_NODES, s)?.depth)
}

// The greatest of index minus depth, floored at 0.
#[tactic(auto, using(crate::proofs::Asking::free_index_asked))]
pub fn max_free_index(s: &[u8]) -> Result<u64, Refusal>
    ensures { told result ≡ max_free_index_of s.now }
{
    Ok(term::check(MOST_NODES, s)?.reach)
}

// Whether some index is 0 or free.
#[tactic(auto, using(crate::proofs::Asking::free_asked))]
pub fn has_free_variables(s: &[u8]) -> Result<bool, Refusal>
    ensures { told result ≡ has_free_variables_of s.now }
{
    Ok(term::check(MOST_NODES, s)?.free)
}

// Whether every index is bound: the opposite.
pub fn is_supercombinator(s: &[u8]) -> Result<bool, Refusal>
    ensures { told result ≡ is_supercombinator_of s.now }
{
    Ok(!has_free_variables(s)?)
}

// Where two equal terms at one offset end, or none if they differ. Terms that were equal so far end at one offset. The
// room falls at each call, so that calls nest no deeper than it. Stays a walk, though `s == u` would do: a rule of the
// project (docs/RULES.md, Forms of the code, Recursion).
fn same_at(s: &[u8], u: &[u8], at: usize, room: u64) -> Option<usize>
    requires low { Low s.now at room }
    requires begins { Begins u.now at }
    ensures { Compares s.now u.now at result }
{
    // a term begins here in both
    let head = term::head_at(s, at).unwrap();
    let other = term::head_at(u, at).unwrap();
    let differs = head != other;
    if differs {
        return None;
    }
    match head {
        Head::Variable(_) => Some(at + 9),
        Head::Abstraction => same_at(s, u, at + 1, room - 1),
        Head::Application => {
            let mid = same_at(s, u, at + 1, room - 1)?;
            same_at(s, u, mid, room - 1)
        }
    }
}

// Whether two terms are the same; the first input's refusals come before the second's.
#[tactic(auto, using(crate::proofs::Comparing::equality_asked))]
pub fn equality(s: &[u8], u: &[u8]) -> Result<bool, Refusal>
    ensures { told result ≡ equality_of s.now u.now }
{
    term::check(MOST_NODES, s)?;
    term::check(MOST_NODES, u)?;
    Ok(same_at(s, u, 0, MOST_HEIGHT).is_some())
}
