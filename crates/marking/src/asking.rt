// The first line of the program's input: an order, a limit and a notation.
ghost use Rattle.std.specs.Prelude.{◌≡◌, not, take, drop, position};
ghost use Rattle.calculus.specs.Program.{first_line, look_up, order_words, notation_words, limit_in, past};
ghost use Rattle.calculus.specs.Words.{start, rest};
ghost use Rattle.calculus.specs.Classic.{is_figure};
ghost use Rattle.orders.specs.Orders.{order_of};
ghost use Rattle.term.specs.Notations.{notation_of};
ghost use Rattle.marking.specs.Asking.{said, job_of};

use orders::Order;
use term::Notation;

// What the line asks for, and the text after it.
#[derive(Clone, Copy, Debug, PartialEq, Eq)]
pub(crate) struct Job<'a> {
    pub(crate) order: Order,
    pub(crate) limit: u64,
    pub(crate) notation: Notation,
    pub(crate) text: &'a [u8],
}

// The order that a word names.
// It and `named_notation` stay two rows of tests: one function would take a table of words and values, no plainer.
#[tactic(auto, using(crate::proofs::Naming::unnamed), unfolding(calculus::specs::Program::look_up, calculus::specs::Program::order_words))]
fn named_order(word: &[u8]) -> Option<Order>
    ensures { said order_of result ≡ look_up order_words word.now }
{
    if word == b"CBN".as_slice() {
        return Some(Order::CBN);
    }
    if word == b"HSP".as_slice() {
        return Some(Order::HSP);
    }
    if word == b"CBV".as_slice() {
        return Some(Order::CBV);
    }
    if word == b"APP".as_slice() {
        return Some(Order::APP);
    }
    if word == b"NOR".as_slice() {
        return Some(Order::NOR);
    }
    if word == b"HNO".as_slice() {
        return Some(Order::HNO);
    }
    if word == b"HAP".as_slice() {
        return Some(Order::HAP);
    }
    None
}

// The notation that a word names.
#[tactic(auto, using(crate::proofs::Naming::unnamed), unfolding(calculus::specs::Program::look_up, calculus::specs::Program::notation_words))]
fn named_notation(word: &[u8]) -> Option<Notation>
    ensures { said notation_of result ≡ look_up notation_words word.now }
{
    if word == b"dbr".as_slice() {
        return Some(Notation::DeBruijn);
    }
    if word == b"cla".as_slice() {
        return Some(Notation::Classic);
    }
    None
}

// The three letters that stand first, or as many as there are, and what follows them.
fn split_word(s: &[u8]) -> (&[u8], &[u8])
    ensures word { result.0.now ≡ take 3 s.now }
    ensures after { result.1.now ≡ drop 3 s.now }
{
    s.split_at(s.len().min(3))
}

// Where the digits end that stand first, if they do before the bytes.
fn digits_end(s: &[u8]) -> Option<usize>
    ensures { result ≡ position (λ b. not (is_figure b)) s.now }
{
    s.iter().position(|b| !b.is_ascii_digit())
}

// The digits that stand first, and what follows them.
fn split_digits(s: &[u8]) -> (&[u8], &[u8])
    ensures digits { result.0.now ≡ start is_figure s.now }
    ensures after { result.1.now ≡ rest is_figure s.now }
{
    s.split_at(digits_end(s).unwrap_or(s.len()))
}

// The number of one to seven digits. It stays a sum: `parse` takes more than seven digits too.
#[tactic(auto, using(crate::proofs::Digits::reading))]
fn number(digits: &[u8]) -> Option<u64>
    requires { start is_figure digits.now ≡ digits.now }
    ensures { said (λ n. n) result ≡ limit_in digits.now }
{
    if !(1..=7).contains(&digits.len()) {
        return None;
    }
    let mut value = 0;
    for &digit in digits {
        value = value * 10 + u64::from(digit - b'0');
    }
    Some(value)
}

// What follows a byte that must stand first.
fn past(s: &[u8], b: u8) -> Option<&[u8]>
    ensures { said (λ after. after.now) result ≡ past b s.now }
{
    s.strip_prefix(&[b])
}

// The parts in a row: the line is malformed if one of them is missing.
pub(crate) fn first_line(s: &[u8]) -> Option<Job<'_>>
    ensures { said job_of result ≡ first_line s.now }
{
    let (word, after) = split_word(s);
    let order = named_order(word)?;
    let (digits, after) = split_digits(past(after, b' ')?);
    let limit = number(digits)?;
    let (word, after) = split_word(past(after, b' ')?);
    let notation = named_notation(word)?;
    let text = past(after, b'\n')?;
    Some(Job {
        order,
        limit,
        notation,
        text,
    })
}
