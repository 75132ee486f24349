// The program's output: a line of a word and a number, and the text of a term.
ghost use Rattle.std.specs.Prelude.{◌+◌, ◌≤◌, length};
ghost use Rattle.calculus.specs.Bounds.{greatest_number};
ghost use Rattle.calculus.specs.Numbers.{numeral};
ghost use Rattle.calculus.specs.Program.{line, refused_line};
ghost use Rattle.calculus.proofs.Putting.{Puts};
ghost use Rattle.term.specs.Answers.{refusal_of};
ghost use Rattle.term.specs.Notations.{notation_of};
ghost use Rattle.marking.specs.Working.{most_word, Printable, Prints};

use printer::putting::{put, put_all};
use term::{Notation, Refusal};

// The most digits of a number that is written.
const DIGITS: u64 = 7;

// A number in as many digits as it needs, of at most so many. Each digit but the last is one more call.
// stays: `Display` writes to a `fmt::Write`, and one over the lent bytes would owe these clauses again, no plainer
#[tactic(auto, using(crate::proofs::Decimals::decimal))]
fn put_decimal(out: &mut [u8], to: usize, most: u64, number: u64) -> usize
    requires { to + most ≤ greatest_number }
    ensures { Puts out.old to (numeral 10 most number) result out.new }
{
    if most == 0 {
        return to;
    }
    if number < 10 {
        return put(out, to, b'0' + number as u8);
    }
    let last = put_decimal(out, to, most - 1, number / 10);
    put(out, last, b'0' + (number % 10) as u8)
}

// A word, a space, a number and a line feed.
#[tactic(auto, using(crate::proofs::Decimals::decimal))]
pub(crate) fn put_line(out: &mut [u8], word: &[u8], number: u64) -> usize
    requires { length word.now ≤ most_word }
    ensures { Puts out.old 0 (line word.now number) result out.new }
{
    let gap = put_all(out, 0, word);
    let digits = put(out, gap, b' ');
    let end = put_decimal(out, digits, DIGITS, number);
    put(out, end, b'\n')
}

// The line of a refusal, by its number.
#[tactic(auto, unfolding(calculus::specs::Characters::codes, calculus::specs::Numbers::numeral))]
pub(crate) fn put_refusal(out: &mut [u8], why: Refusal) -> usize
    ensures { Puts out.old 0 (refused_line (refusal_of why)) result out.new }
{
    put_line(out, b"refused", why.number())
}

// The text of a term within the program's cap, for which there is room from a place on.
pub(crate) fn put_term(out: &mut [u8], to: usize, notation: Notation, s: &[u8]) -> usize
    requires { Printable s.now to out.old }
    ensures { Prints (notation_of notation) s.now out.old to result out.new }
{
    match printer::print(notation, s, &mut out[to..]) {
        Ok(length) => to + length,
        // not met: the term is within the bounds, and its text fits
        Err(_) => to,
    }
}
