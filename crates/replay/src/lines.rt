// The words of a line, the numbers that they say, and bytes put into a buffer.
ghost use Rattle.std.specs.Prelude.{◌≤◌, length};

// Writes a byte and moves on; at the end of the buffer it does neither. Buffer and place stay two: a Vec wants a heap.
pub(crate) fn put(buf: &mut [u8], at: usize, b: u8) -> usize
    requires { at ≤ length buf.old }
    ensures { (at ≤ result) × (result ≤ length buf.new) }
{
    if at < buf.len() {
        buf[at] = b;
        at + 1
    } else {
        at
    }
}

// What stands before a mark, or all where there is none, and what follows it.
pub(crate) fn cut(line: &[u8], mark: u8) -> (&[u8], &[u8])
    ensures { length result.1.now ≤ length line.now }
{
    match line.iter().position(|&b| b == mark) {
        Some(at) => (&line[..at], &line[at + 1..]),
        None => (line, &[]),
    }
}

// Which of the names, themselves a line's words, a word is, from 0 on.
pub(crate) fn which(names: &[u8], word: &[u8]) -> Option<usize> {
    names.split(|&b| b == b' ').position(|name| name == word)
}

// A digit's value, up to f. It stays written out: `to_digit` takes A to F as well, which are no digits of a line.
pub(crate) fn digit(b: u8) -> Option<u64> {
    match b {
        b'0'..=b'9' => Some(u64::from(b - b'0')),
        b'a'..=b'f' => Some(u64::from(b - b'a') + 10),
        _ => None,
    }
}

// The number whose first digits are read once these are too, if it is a 64-bit number.
fn read_on(read: u64, digits: &[u8], base: u64) -> Option<u64> {
    let mut value = read;
    for &b in digits {
        let last = digit(b)?;
        if base <= last {
            return None;
        }
        value = value.checked_mul(base)?.checked_add(last)?;
    }
    Some(value)
}

// A word that says no such number stays a 0, as the program has always taken it.
pub(crate) fn number(digits: &[u8], base: u64) -> u64 {
    read_on(0, digits, base).unwrap_or(0)
}

// The same of hex digits in two pieces.
pub(crate) fn hex_across(first: &[u8], second: &[u8]) -> u64 {
    match read_on(0, first, 16) {
        Some(read) => read_on(read, second, 16).unwrap_or(0),
        None => 0,
    }
}
