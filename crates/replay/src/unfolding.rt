// A line as it is meant: `%` and two hex digits are a byte, `{piece}9;` so many pieces.
ghost use Rattle.std.specs.Prelude.{◌≤◌, length};

use crate::lines::{cut, number, put};

// The first of so many pieces stands between two places, and the others are put behind it.
// It goes by places still: an iterator over the piece would hold the buffer that is written.
fn repeat(work: &mut [u8], from: usize, end: usize, count: u64) -> usize
    requires { end ≤ length work.old }
    ensures { result ≤ length work.new }
{
    let mut to = end;
    for _ in 1..count {
        for at in from..end {
            let b = work[at];
            to = put(work, to, b);
        }
    }
    to
}

// How many bytes of the work the line takes.
pub(crate) fn unfold(line: &[u8], work: &mut [u8]) -> usize
    ensures { result ≤ length work.new }
{
    let mut left = line;
    let mut to: usize = 0;
    let mut piece: usize = 0;
    while let Some((&b, after)) = left.split_first() {
        left = after;
        match b {
            b'%' => {
                let (digits, after) = left.split_at(left.len().min(2));
                to = put(work, to, (number(digits, 16) % 256) as u8);
                left = after;
            }
            b'{' => {
                piece = to;
            }
            b'}' => {
                let (count, after) = cut(left, b';');
                to = repeat(work, piece, to, number(count, 10));
                left = after;
            }
            _ => {
                to = put(work, to, b);
            }
        }
    }
    to
}
