// The exported functions: for C and Rust, each entry point of copperjangle under its own name, with its clauses.
#![tactic(auto)]

ghost use Rattle.std.specs.Prelude.{◌≡◌};
ghost use Rattle.calculus.specs.Outcomes.{nodes_of, height_of, max_depth_of, max_free_index_of};
ghost use Rattle.calculus.specs.Outcomes.{has_free_variables_of, is_supercombinator_of, equality_of};
ghost use Rattle.calculus.specs.Outcomes.{apply_of, eta_of};
ghost use Rattle.copperjangle.specs.Answers.{number_in_numbers, truth_in_numbers, run_in_numbers, told_by};
ghost use Rattle.copperjangle.specs.Exports.{parse_numbered, print_numbered, reduce_numbered};

use copperjangle::Answer;

// The twelve stay one function each, with buffers side by side: the C interface.

// How many variables, abstractions and applications there are, in `value`, as each number below.
#[unsafe(no_mangle)]
pub extern "C" fn copperjangle_nodes(term: &[u8]) -> Answer
    ensures { result ≡ number_in_numbers (nodes_of term.now) }
{
    copperjangle::copperjangle_nodes(term)
}

// One for a variable, and one more than the taller part for any other node.
#[unsafe(no_mangle)]
pub extern "C" fn copperjangle_height(term: &[u8]) -> Answer
    ensures { result ≡ number_in_numbers (height_of term.now) }
{
    copperjangle::copperjangle_height(term)
}

// The most abstractions on a path.
#[unsafe(no_mangle)]
pub extern "C" fn copperjangle_max_depth(term: &[u8]) -> Answer
    ensures { result ≡ number_in_numbers (max_depth_of term.now) }
{
    copperjangle::copperjangle_max_depth(term)
}

// The greatest of index minus depth, floored at 0.
#[unsafe(no_mangle)]
pub extern "C" fn copperjangle_max_free_index(term: &[u8]) -> Answer
    ensures { result ≡ number_in_numbers (max_free_index_of term.now) }
{
    copperjangle::copperjangle_max_free_index(term)
}

// 1 if some index is 0 or free, else 0.
#[unsafe(no_mangle)]
pub extern "C" fn copperjangle_has_free_variables(term: &[u8]) -> Answer
    ensures { result ≡ truth_in_numbers (has_free_variables_of term.now) }
{
    copperjangle::copperjangle_has_free_variables(term)
}

// 1 if every index is bound, else 0.
#[unsafe(no_mangle)]
pub extern "C" fn copperjangle_is_supercombinator(term: &[u8]) -> Answer
    ensures { result ≡ truth_in_numbers (is_supercombinator_of term.now) }
{
    copperjangle::copperjangle_is_supercombinator(term)
}

// 1 if two terms are the same, else 0; the first input's refusals come before the second's.
#[unsafe(no_mangle)]
pub extern "C" fn copperjangle_equality(first: &[u8], second: &[u8]) -> Answer
    ensures { result ≡ truth_in_numbers (equality_of first.now second.now) }
{
    copperjangle::copperjangle_equality(first, second)
}

// The text of a term in the notation of this number, and its length; an unknown number is refused by 1.
#[unsafe(no_mangle)]
pub extern "C" fn copperjangle_print(notation: u64, term: &[u8], out: &mut [u8]) -> Answer
    ensures { (result, out.new) ≡ print_numbered notation term.now out.old }
{
    copperjangle::copperjangle_print(notation, term, out)
}

// The term that a text says in the notation of this number, and its length; an unknown number is refused by 1.
#[unsafe(no_mangle)]
pub extern "C" fn copperjangle_parse(
    notation: u64,
    cap: u64,
    text: &[u8],
    out: &mut [u8],
    room: &mut [u64],
) -> Answer
    ensures { (result, out.new, room.new)
        ≡ parse_numbered notation cap text.now out.old room.old }
{
    copperjangle::copperjangle_parse(notation, cap, text, out, room)
}

// The body of an abstraction with the argument put in, and its length.
#[unsafe(no_mangle)]
pub extern "C" fn copperjangle_apply(
    cap: u64,
    abstraction: &[u8],
    argument: &[u8],
    out: &mut [u8],
    room: &mut [u64],
) -> Answer
    ensures { (result, out.new, room.new)
        ≡ told_by number_in_numbers (apply_of cap abstraction.now argument.now
        out.old room.old) }
{
    copperjangle::copperjangle_apply(cap, abstraction, argument, out, room)
}

// Eta steps until none is left, or as many as the limit where it is not 0: the term reached, and its length.
#[unsafe(no_mangle)]
pub extern "C" fn copperjangle_eta(
    limit: u64,
    cap: u64,
    term: &[u8],
    out: &mut [u8],
    room: &mut [u64],
) -> Answer
    ensures { (result, out.new, room.new)
        ≡ told_by run_in_numbers (eta_of limit cap term.now out.old room.old) }
{
    copperjangle::copperjangle_eta(limit, cap, term, out, room)
}

// Steps of the order of this number, at most the limit: the term reached, and its length. An unknown number is refused
// by 1.
#[unsafe(no_mangle)]
pub extern "C" fn copperjangle_reduce(
    order: u64,
    limit: u64,
    cap: u64,
    term: &[u8],
    out: &mut [u8],
    room: &mut [u64],
) -> Answer
    ensures { (result, out.new, room.new)
        ≡ reduce_numbered order limit cap term.now out.old room.old }
{
    copperjangle::copperjangle_reduce(order, limit, cap, term, out, room)
}
