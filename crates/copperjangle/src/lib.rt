// The entry points, which copperjangle_c exports for C and Rust: each takes any bytes and any numbers, and answers in
// six numbers.
#![tactic(auto)]

mod telling;

ghost use Rattle.std.specs.Prelude.{◌≡◌};
ghost use Rattle.calculus.specs.Outcomes.{nodes_of, height_of, max_depth_of, max_free_index_of};
ghost use Rattle.calculus.specs.Outcomes.{has_free_variables_of, is_supercombinator_of, equality_of};
ghost use Rattle.calculus.specs.Outcomes.{apply_of, eta_of};
ghost use Rattle.copperjangle.specs.Answers.{number_in_numbers, truth_in_numbers, run_in_numbers, told_by};
ghost use Rattle.copperjangle.specs.Exports.{parse_numbered, print_numbered, reduce_numbered};

use orders::Order;
use term::Notation;

// An answer in numbers. What a field is not said to hold, it holds 0.
// Refusal, end and truths stay numbers, as notation and order below: the C interface.
#[repr(C)]
#[derive(Clone, Copy, Debug, PartialEq, Eq)]
pub struct Answer {
    // 0, or the number of the refusal
    pub refusal: u64,
    // of reduce and eta: 1 if no step is left
    pub finished: u64,
    // the length of what stands in the output, or what was asked for; after 13 the length needed
    pub value: u64,
    // of reduce and eta: the steps completed
    pub steps: u64,
    // after 4 and 10 the offset, after 5 the place
    pub place: u64,
    // after 5 the code point
    pub code: u64,
}

// The twelve stay one function each, with buffers side by side: the C interface.
// Four attributes open a definition that no body needs, so that an edit of how an answer is told is judged by it.

// How many variables, abstractions and applications there are, in `value`, as each number below.
pub fn copperjangle_nodes(term: &[u8]) -> Answer
    ensures { result ≡ number_in_numbers (nodes_of term.now) }
{
    Answer::from(queries::nodes(term))
}

// One for a variable, and one more than the taller part for any other node.
pub fn copperjangle_height(term: &[u8]) -> Answer
    ensures { result ≡ number_in_numbers (height_of term.now) }
{
    Answer::from(queries::height(term))
}

// The most abstractions on a path.
pub fn copperjangle_max_depth(term: &[u8]) -> Answer
    ensures { result ≡ number_in_numbers (max_depth_of term.now) }
{
    Answer::from(queries::max_depth(term))
}

// The greatest of index minus depth, floored at 0.
pub fn copperjangle_max_free_index(term: &[u8]) -> Answer
    ensures { result ≡ number_in_numbers (max_free_index_of term.now) }
{
    Answer::from(queries::max_free_index(term))
}

// 1 if some index is 0 or free, else 0.
#[tactic(auto, unfolding(crate::specs::Answers::truth_in_numbers))]
pub fn copperjangle_has_free_variables(term: &[u8]) -> Answer
    ensures { result ≡ truth_in_numbers (has_free_variables_of term.now) }
{
    Answer::from(queries::has_free_variables(term))
}

// 1 if every index is bound, else 0.
#[tactic(auto, unfolding(crate::specs::Answers::truth_in_numbers))]
pub fn copperjangle_is_supercombinator(term: &[u8]) -> Answer
    ensures { result ≡ truth_in_numbers (is_supercombinator_of term.now) }
{
    Answer::from(queries::is_supercombinator(term))
}

// 1 if two terms are the same, else 0; the first input's refusals come before the second's.
#[tactic(auto, unfolding(crate::specs::Answers::truth_in_numbers))]
pub fn copperjangle_equality(first: &[u8], second: &[u8]) -> Answer
    ensures { result ≡ truth_in_numbers (equality_of first.now second.now) }
{
    Answer::from(queries::equality(first, second))
}

// The text of a term in the notation of this number, and its length; an unknown number is refused by 1.
#[tactic(auto, using(crate::proofs::ByNumber::printing))]
pub fn copperjangle_print(notation: u64, term: &[u8], out: &mut [u8]) -> Answer
    ensures { (result, out.new) ≡ print_numbered notation term.now out.old }
{
    match Notation::try_from(notation) {
        Ok(notation) => Answer::from(printer::print(notation, term, out)),
        Err(why) => Answer::from(why),
    }
}

// The term that a text says in the notation of this number, and its length; an unknown number is refused by 1.
#[tactic(auto, using(crate::proofs::ByNumber::parsing))]
pub fn copperjangle_parse(
    notation: u64,
    cap: u64,
    text: &[u8],
    out: &mut [u8],
    room: &mut [u64],
) -> Answer
    ensures { (result, out.new, room.new)
        ≡ parse_numbered notation cap text.now out.old room.old }
{
    match Notation::try_from(notation) {
        Ok(notation) => Answer::from(parser::parse(notation, cap, text, out, room)),
        Err(why) => Answer::from(why),
    }
}

// The body of an abstraction with the argument put in, and its length.
#[tactic(auto, unfolding(crate::specs::Answers::number_in_numbers))]
pub fn copperjangle_apply(
    cap: u64,
    abstraction: &[u8],
    argument: &[u8],
    out: &mut [u8],
    room: &mut [u64],
) -> Answer
    ensures { (result, out.new, room.new)
        ≡ told_by number_in_numbers (apply_of cap abstraction.now argument.now
        out.old room.old) }
{
    Answer::from(reduction::apply(cap, abstraction, argument, out, room))
}

// Eta steps until none is left, or as many as the limit where it is not 0: the term reached, and its length.
pub fn copperjangle_eta(
    limit: u64,
    cap: u64,
    term: &[u8],
    out: &mut [u8],
    room: &mut [u64],
) -> Answer
    ensures { (result, out.new, room.new)
        ≡ told_by run_in_numbers (eta_of limit cap term.now out.old room.old) }
{
    Answer::from(eta::eta(limit, cap, term, out, room))
}

// Steps of the order of this number, at most the limit: the term reached, and its length. An unknown number is refused
// by 1.
#[tactic(auto, using(crate::proofs::ByNumber::reducing))]
pub fn copperjangle_reduce(
    order: u64,
    limit: u64,
    cap: u64,
    term: &[u8],
    out: &mut [u8],
    room: &mut [u64],
) -> Answer
    ensures { (result, out.new, room.new)
        ≡ reduce_numbered order limit cap term.now out.old room.old }
{
    match Order::try_from(order) {
        Ok(order) => Answer::from(reduction::reducing::reduce(order, limit, cap, term, out, room)),
        Err(why) => Answer::from(why),
    }
}
