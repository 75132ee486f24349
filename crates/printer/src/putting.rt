// Putting text: each function puts bytes at a place of a lent slice and returns the place after them.
// Slice and place stay two parameters: a rule of the project (docs/RULES.md, Forms of the code, Writer).
ghost use Rattle.std.specs.Prelude.{cond, [], ◌∷◌, ◌+◌, ◌≤◌, ◌<◌, length, replicate};
ghost use Rattle.calculus.specs.Bounds.{greatest_number};
ghost use Rattle.calculus.proofs.Putting.{Puts};

// Past the end a byte is counted and not stored, so that one walk both measures a text and writes it.
pub fn put(out: &mut [u8], to: usize, b: u8) -> usize
    requires { to < greatest_number }
    ensures { Puts out.old to (b ∷ []) result out.new }
{
    if to < out.len() {
        out[to] = b;
        to + 1
    } else {
        to + 1
    }
}

// The bytes of a text, one after another.
pub fn put_all(out: &mut [u8], to: usize, text: &[u8]) -> usize
    requires { to + length text.now ≤ greatest_number }
    ensures { Puts out.old to text.now result out.new }
{
    let mut place = to;
    for &byte in text {
        place = put(out, place, byte);
    }
    place
}

pub(crate) fn put_times(out: &mut [u8], to: usize, b: u8, times: usize) -> usize
    requires { to + times ≤ greatest_number }
    ensures { Puts out.old to (replicate times b) result out.new }
{
    let mut place = to;
    for _ in 0..times {
        place = put(out, place, b);
    }
    place
}

pub(crate) fn put_if(out: &mut [u8], to: usize, wanted: bool, b: u8) -> usize
    requires { to + length (cond wanted (b ∷ []) []) ≤ greatest_number }
    ensures { Puts out.old to (cond wanted (b ∷ []) []) result out.new }
{
    if wanted { put(out, to, b) } else { to }
}
