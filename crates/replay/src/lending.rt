// What is lent to a call, and what became of it.
use crate::asking::Call;
use crate::lines::{cut, number};
use calculus::{MOST_NODES, ROOM_PER_NODE};
use copperjangle::Answer;
use std::io;

// The cap that is stated, the bytes of output and the numbers of room.
#[derive(Clone, Copy, Debug, Default)]
pub(crate) struct Lent {
    pub(crate) cap: u64,
    pub(crate) bytes: usize,
    pub(crate) numbers: usize,
}

// What is lent after a line, which may say it anew.
pub(crate) fn read(line: &[u8], lent: Lent) -> Lent {
    let (word, after) = cut(line, b' ');
    if word != b"lend".as_slice() {
        return lent;
    }
    let (cap, after) = cut(after, b' ');
    let (bytes, after) = cut(after, b' ');
    let (numbers, _) = cut(after, b' ');
    Lent {
        cap: number(cap, 10),
        bytes: number(bytes, 10) as usize,
        numbers: number(numbers, 10) as usize,
    }
}

// Output and room are full of these before a call.
pub(crate) const FILLED: u8 = 126;

pub(crate) const FILLED_NUMBER: u64 = 7;

// The bytes of output that are the answer. Refusals stay numbers, here and below: an Answer is the C interface's.
pub(crate) fn written(call: Call, answer: Answer, out: &[u8]) -> &[u8] {
    if answer.refusal != 0 || !call.writes() {
        return &[];
    }
    out.get(..answer.value as usize).unwrap_or_default()
}

// The numbers of room that are to be zero: none after the refusals 1 and 2, nor where no room is lent.
pub(crate) fn cleared(call: Call, refusal: u64, cap: u64) -> usize {
    if matches!(refusal, 1 | 2) || !call.works() || MOST_NODES < cap {
        return 0;
    }
    ROOM_PER_NODE * cap as usize
}

// Behind the answer the output is as it was; of the room the first numbers are zero, and the others as they were.
pub(crate) fn tell_changes(
    rt: &impl Print,
    out: &[u8],
    length: usize,
    room: &[u64],
    zeros: usize,
) -> io::Result<()> {
    if !out.iter().skip(length).all(|&b| b == FILLED) {
        print!(rt; " OUTPUT CHANGED")?;
    }
    if room.len() < zeros || !room.iter().take(zeros).all(|&n| n == 0) {
        print!(rt; " ROOM NOT CLEAR")?;
    }
    if !room.iter().skip(zeros).all(|&n| n == FILLED_NUMBER) {
        print!(rt; " ROOM CHANGED")?;
    }
    Ok(())
}
