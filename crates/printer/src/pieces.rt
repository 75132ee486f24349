// The pieces of a text: an index, a name, and in either notation a variable, a binder and the gap between two parts.
ghost use Rattle.std.specs.Prelude.{◌≡◌, [], ◌∷◌, ◌+◌, ◌-◌, ◌≤◌, ◌<◌, min, length};
ghost use Rattle.calculus.specs.Bounds.{greatest_number};
ghost use Rattle.calculus.specs.Numbers.{figure, numeral};
ghost use Rattle.calculus.specs.Writing.{index_text, name_text, variable_text};
ghost use Rattle.calculus.proofs.Putting.{Puts};
ghost use Rattle.printer.specs.Pieces.{figures, variable_of, binder_of, gap_of};

use crate::putting::{put, put_all};
use calculus::GREATEST_NUMBER;
use term::Notation;

// DE BRUIJN: the digit 0 to 9, then A to F, seven characters further on. Digits are as good as random, so there is no
// branch on them. Hex stays written by hand: a rule of the project (docs/RULES.md, Forms of the code, Digits).
fn put_figure(out: &mut [u8], to: usize, digit: u64) -> usize
    requires digit_bound { digit < 16 }
    requires to_lt_greatest_number { to < greatest_number }
    ensures { Puts out.old to (figure digit ∷ []) result out.new }
{
    put(out, to, (48 + digit + (digit + 6) / 16 * 7) as u8)
}

// How many hex digits the highest set bit needs.
pub(crate) fn figures_needed(index: u64) -> usize
    requires { 0 < index }
    ensures { (result ≤ 16) × (figures result index ≡ numeral 16 16 index) }
{
    let zeros = u64::leading_zeros(index) as usize;
    (67 - zeros) / 4
}

// The lowest digits, the highest of them first.
fn put_figures(out: &mut [u8], to: usize, index: u64, count: usize) -> usize
    requires count_bound { count ≤ 16 }
    requires count_bound_2 { to + count ≤ greatest_number }
    ensures { Puts out.old to (figures count index) result out.new }
{
    let mut place = to;
    for left in (0..count).rev() {
        place = put_figure(out, place, (index >> (4 * left)) % 16);
    }
    place
}

fn put_index(out: &mut [u8], to: usize, index: u64) -> usize
    requires { to + length (index_text index) ≤ greatest_number }
    ensures { Puts out.old to (index_text index) result out.new }
{
    if index == 0 {
        return put_all(out, to, b"[0]");
    }
    if index < 16 {
        return put_figure(out, to, index);
    }
    let bracket = put(out, to, b'[');
    let end = put_figures(out, bracket, index, figures_needed(index));
    put(out, end, b']')
}

// CLASSIC: the name of a number. Each letter but the last is one more call, so there are at most 14.
fn put_name(out: &mut [u8], to: usize, number: u64) -> usize
    requires { to + length (name_text number) ≤ greatest_number }
    ensures { Puts out.old to (name_text number) result out.new }
{
    if number < 26 {
        return put(out, to, (97 + number) as u8);
    }
    let last = put_name(out, to, number / 26 - 1);
    put(out, last, (97 + number % 26) as u8)
}

// The number whose name a free variable has, in a term with so many abstractions on a path at most.
fn free_name(most: u64, free: u64) -> u64
    requires { 0 < free }
    ensures { result ≡ min (most + free) greatest_number - 1 }
{
    if free < GREATEST_NUMBER - most {
        most + free - 1
    } else {
        GREATEST_NUMBER - 1
    }
}

fn put_named(out: &mut [u8], to: usize, most: u64, depth: u64, index: u64) -> usize
    requires { to + length (variable_text most depth index) ≤ greatest_number }
    ensures { Puts out.old to (variable_text most depth index) result out.new }
{
    if index == 0 {
        return put_all(out, to, b"undefined");
    }
    if index <= depth {
        put_name(out, to, depth - index)
    } else {
        put_name(out, to, free_name(most, index - depth))
    }
}

// How a term is written: in which notation, and with how many abstractions on a path at most.
#[derive(Clone, Copy, Debug, PartialEq, Eq)]
pub(crate) struct Style {
    pub(crate) notation: Notation,
    pub(crate) most: u64,
}

// IN EITHER NOTATION: a variable, a binder, the gap between two parts.
// These stay matches on the notation: data by case, no step is picked.
pub(crate) fn put_variable(out: &mut [u8], to: usize, style: Style, depth: u64, index: u64) -> usize
    requires { to + length (variable_of style depth index) ≤ greatest_number }
    ensures { Puts out.old to (variable_of style depth index) result out.new }
{
    let notation = style.notation;
    match notation {
        Notation::DeBruijn => put_index(out, to, index),
        Notation::Classic => put_named(out, to, style.most, depth, index),
    }
}

pub(crate) fn put_binder(out: &mut [u8], to: usize, style: Style, depth: u64) -> usize
    requires { to + length (binder_of style depth) ≤ greatest_number }
    ensures { Puts out.old to (binder_of style depth) result out.new }
{
    let half = put(out, to, 0xCE);
    let name = put(out, half, 0xBB);
    let notation = style.notation;
    match notation {
        Notation::DeBruijn => name,
        Notation::Classic => {
            let dot = put_name(out, name, depth);
            put(out, dot, b'.')
        }
    }
}

pub(crate) fn put_gap(out: &mut [u8], to: usize, style: Style) -> usize
    requires { to + length (gap_of style) ≤ greatest_number }
    ensures { Puts out.old to (gap_of style) result out.new }
{
    let notation = style.notation;
    match notation {
        Notation::DeBruijn => to,
        Notation::Classic => put(out, to, b' '),
    }
}
