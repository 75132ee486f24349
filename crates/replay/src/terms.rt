// The inputs that a line writes: terms root first, a mark a node, are put as coded bytes behind the line.
ghost use Rattle.std.specs.Prelude.{◌≤◌, length};

use crate::asking::{Asked, Call};
use crate::lines::{cut, digit, hex_across, number, put};

// The inputs of a call; where it takes one, the second is not read.
#[derive(Clone, Copy, Debug, PartialEq, Eq)]
pub(crate) struct Inputs<'a> {
    pub(crate) first: &'a [u8],
    pub(crate) second: &'a [u8],
}

const VARIABLE_BYTES: usize = 9;

// A variable, if there is room for its bytes.
fn put_variable(free: &mut [u8], to: usize, index: u64) -> usize
    requires { to ≤ length free.old }
    ensures { (to ≤ result) × (result ≤ length free.new) }
{
    let end = to + VARIABLE_BYTES;
    if free.len() < end {
        return to;
    }
    free[to] = 1;
    free[to + 1..end].copy_from_slice(&index.to_le_bytes());
    end
}

// The index of a variable in brackets, and what follows them. What the line does not close goes on behind it, with what
// an earlier line left there, unless a space is in between.
fn bracketed<'a>(marks: &'a [u8], behind: &[u8], spaced: bool) -> (u64, &'a [u8])
    ensures { length result.1.now ≤ length marks.now }
{
    match marks.iter().position(|&b| b == b']') {
        Some(at) => (number(&marks[..at], 16), &marks[at + 1..]),
        None if spaced => (0, &[]),
        None => (hex_across(marks, cut(behind, b']').0), &[]),
    }
}

// The bytes of a term's marks, put from a place on as far as there is room, and where they end: `\` is an abstraction,
// `@` an application, a hex digit a variable of that index, and a greater index stands in brackets. Any other mark
// stays the variable 16, as the program has always taken it.
fn put_term(free: &mut [u8], from: usize, marks: &[u8], spaced: bool) -> usize
    requires { from ≤ length free.old }
    ensures { (from ≤ result) × (result ≤ length free.new) }
{
    let mut left = marks;
    let mut to = from;
    while let Some((&mark, after)) = left.split_first() {
        left = after;
        match mark {
            b'\\' => {
                to = put(free, to, 2);
            }
            b'@' => {
                to = put(free, to, 3);
            }
            b'[' => {
                let (index, after) = bracketed(left, free, spaced);
                to = put_variable(free, to, index);
                left = after;
            }
            _ => {
                to = put_variable(free, to, digit(mark).unwrap_or(16));
            }
        }
    }
    to
}

// A text is the rest of the line; of two inputs the second is. A word that begins with `=` has its bytes after it.
pub(crate) fn read<'a>(asked: Asked<'a>, free: &'a mut [u8]) -> Inputs<'a> {
    if asked.call == Call::Parse {
        return Inputs {
            first: asked.inputs,
            second: &[],
        };
    }
    let (first, second) = cut(asked.inputs, b' ');
    let own_first = first.strip_prefix(b"=");
    let own_second = second.strip_prefix(b"=");
    let middle = match own_first {
        None => put_term(free, 0, first, first.len() < asked.inputs.len()),
        Some(_) => 0,
    };
    let end = match own_second {
        None => put_term(free, middle, second, false),
        Some(_) => middle,
    };
    Inputs {
        first: own_first.unwrap_or(&free[..middle]),
        second: own_second.unwrap_or(&free[middle..end]),
    }
}
