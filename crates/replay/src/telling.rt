// The words of an answer: its six numbers, and what stands first in the output.
use crate::asking::Call;
use copperjangle::Answer;
use std::io;
use term::Head;

// The Adler-32 checksum of bytes.
fn checksum(bytes: &[u8]) -> u64 {
    let mut low: u64 = 1;
    let mut high: u64 = 0;
    for &b in bytes {
        low = (low + u64::from(b)) % 65521;
        high = (high + low) % 65521;
    }
    high * 65536 + low
}

fn tell_index(rt: &impl Print, index: u64) -> io::Result<()> {
    if index < 16 {
        return print!(rt; "{index:x}");
    }
    print!(rt; "[{index:x}]")
}

// A term by marks, as questions have it. The place stays counted: a node takes 1 or 9 bytes, so no iterator goes along.
// A mark is written as a byte: `print!` makes a buffer of its own for each.
fn tell_term(rt: &impl Print, s: &[u8]) -> io::Result<()> {
    let mut at: usize = 0;
    while at < s.len() {
        match term::head_at(s, at) {
            Some(Head::Variable(index)) => {
                tell_index(rt, index)?;
                at += 9;
            }
            Some(Head::Abstraction) => {
                rt.write_all(b"\\")?;
                at += 1;
            }
            Some(Head::Application) => {
                rt.write_all(b"@")?;
                at += 1;
            }
            None => return Ok(()),
        }
    }
    Ok(())
}

// What has more bytes than these is told by its checksum.
const MOST_TOLD: usize = 6000;

fn tell_output(rt: &impl Print, call: Call, written: &[u8]) -> io::Result<()> {
    if MOST_TOLD < written.len() {
        let sum = checksum(written);
        return print!(rt; "checksum {sum}");
    }
    if call == Call::Print {
        return rt.write_all(written);
    }
    tell_term(rt, written)
}

pub(crate) fn tell(rt: &impl Print, call: Call, answer: Answer, written: &[u8]) -> io::Result<()> {
    let Answer {
        refusal,
        finished,
        value,
        steps,
        place,
        code,
    } = answer;
    print!(rt; "{refusal} {finished} {value} {steps} {place} {code}")?;
    if !written.is_empty() {
        rt.write_all(b" ")?;
        tell_output(rt, call, written)?;
    }
    Ok(())
}
