// Around the program's work: reading as much as comes, and standard input marked, the answer to standard output.
#![tactic(auto)]

ghost use Rattle.std.specs.Prelude.{◌<◌, length, take, IfOk};
ghost use Rattle.std.specs.Io.{ReadsAtMost};
ghost use Rattle.std.specs.Io.KnownBytes.{Consumes, IsAtEnd};

use marking::MOST_OUTPUT;
use std::io;
use std::io::Read;

// One byte more than the program takes, so that too many are seen.
const INPUT: usize = 65537;

// What the reader has, as far as there is room for it, and how many bytes that is. A read may bring less than there is,
// so reading goes on until the buffer is full or the input ends; an error ends it, whatever came before.
// It stays a loop: `read_to_end` wants a Vec, and there is no heap; `read_exact` refuses a short input.
pub fn read_full<R: Read>(reader: &mut R, buf: &mut [u8]) -> io::Result<usize>
    ensures bound { ReadsAtMost result buf.new }
    ensures bytes { IfOk result (λ n. Consumes (R.remaining reader.old) (R.remaining reader.new) (take n buf.new)) }
    ensures end { IfOk result (λ n. n < length buf.new → IsAtEnd (R.remaining reader.new)) }
{
    let mut done = 0;
    while done < buf.len() {
        let count = reader.read(&mut buf[done..])?;
        if count == 0 {
            return Ok(done);
        }
        done += count;
    }
    Ok(done)
}

// The answer to an input, in an array, as `serve` has the input in one: no heap.
fn answer(rt: &(impl Print + Eprint), input: &[u8]) -> io::Result<()> {
    let mut out = [0u8; MOST_OUTPUT];
    let length = marking::mark(input, &mut out);
    match rt.write_all(&out[..length]) {
        Ok(()) => Ok(()),
        Err(_) => eprintln!(rt; "mark: the answer could not be written"),
    }
}

// An input that cannot be read to its end is not answered.
pub fn serve(rt: &(impl Input + Print + Eprint)) -> io::Result<()> {
    let mut input = [0u8; INPUT];
    match read_full(&mut rt.reader(), &mut input) {
        Ok(length) => answer(rt, &input[..length]),
        Err(_) => eprintln!(rt; "mark: the input could not be read"),
    }
}
