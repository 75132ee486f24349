// Marks each case of standard input, which a tilde and a line feed end, and writes the answers in the same manner.
#![tactic(auto)]

use marking::MOST_OUTPUT;
use serving::read_full;
use std::io;

fn show_answer(rt: &impl Print, case: &[u8]) -> io::Result<()> {
    let mut out = [0u8; MOST_OUTPUT];
    let length = marking::mark(case, &mut out);
    rt.write_all(&out[..length])?;
    rt.write_all(b"~\n")
}

// Behind a case are its tilde and its line feed, then the next case.
fn show_answers(rt: &impl Print, input: &[u8]) -> io::Result<()> {
    let mut left = input;
    while let Some(end) = left.iter().position(|&b| b == b'~') {
        show_answer(rt, &left[..end])?;
        left = left.get(end + 2..).unwrap_or_default();
    }
    Ok(())
}

fn main(rt: HostRuntime) -> io::Result<()> {
    // an array: no heap
    let mut input = [0u8; 65536];
    let length = read_full(&mut rt.reader(), &mut input)?;
    show_answers(&rt, &input[..length])
}
