// Asks the functions of copperjangle what each line of standard input says, and writes the answers to standard output.
#![tactic(auto)]

mod asking;
mod lending;
mod lines;
mod telling;
mod terms;
mod unfolding;

use asking::Asked;
use lending::{FILLED, FILLED_NUMBER, Lent};
use serving::read_full;
use std::io;
use terms::Inputs;

// One call, lent just what it is to be lent, which is full of a pattern, and its answer.
// Output and room stay two parameters: `answer_each` lends a part of each, so a struct of both would be made twice.
fn answer_one(
    rt: &impl Print,
    asked: Asked,
    name: u64,
    cap: u64,
    inputs: Inputs,
    out: &mut [u8],
    room: &mut [u64],
) -> io::Result<()> {
    out.fill(FILLED);
    room.fill(FILLED_NUMBER);
    let answer = asking::answer(asked, name, cap, inputs, out, room);
    let written = lending::written(asked.call, answer, out);
    telling::tell(rt, asked.call, answer, written)?;
    let zeros = lending::cleared(asked.call, answer.refusal, cap);
    lending::tell_changes(rt, out, written.len(), room, zeros)?;
    rt.write_all(b"\n")
}

// A call in one order, or one in each.
fn answer_each(
    rt: &impl Print,
    asked: Asked,
    inputs: Inputs,
    lent: Lent,
    out: &mut [u8],
    room: &mut [u64],
) -> io::Result<()> {
    if out.len() < lent.bytes || room.len() < lent.numbers {
        return Ok(());
    }
    let out = &mut out[..lent.bytes];
    let room = &mut room[..lent.numbers];
    for name in asked.orders.numbers() {
        answer_one(rt, asked, name, lent.cap, inputs, out, room)?;
    }
    Ok(())
}

// What is lent from here on: a line that asks nothing is repeated, and may say it anew.
fn answer_line(
    rt: &impl Print,
    line: &[u8],
    lent: Lent,
    work: &mut [u8],
    out: &mut [u8],
    room: &mut [u64],
) -> io::Result<Lent> {
    let length = unfolding::unfold(line, work);
    let (unfolded, free) = work.split_at_mut(length);
    match asking::read(unfolded) {
        None => {
            rt.write_all(line)?;
            rt.write_all(b"\n")?;
            Ok(lending::read(line, lent))
        }
        Some(asked) => {
            let inputs = terms::read(asked, free);
            answer_each(rt, asked, inputs, lent, out, room)?;
            Ok(lent)
        }
    }
}

// A line feed ends each line.
fn answer_lines(
    rt: &impl Print,
    input: &[u8],
    work: &mut [u8],
    out: &mut [u8],
    room: &mut [u64],
) -> io::Result<()> {
    let mut lent = Lent::default();
    for line in input.split_inclusive(|&b| b == b'\n') {
        let line = line.strip_suffix(b"\n").unwrap_or(line);
        lent = answer_line(rt, line, lent, work, out, room)?;
    }
    Ok(())
}

fn answer_input(
    rt: &(impl Input + Print),
    input: &mut [u8],
    work: &mut [u8],
    out: &mut [u8],
    room: &mut [u64],
) -> io::Result<()> {
    let length = read_full(&mut rt.reader(), input)?;
    answer_lines(rt, &input[..length], work, out, room)
}

// A line takes as much as the longest text and some words; output and room are for 65,536 nodes, and five more of each.
// They stay arrays: no heap.
fn main(rt: HostRuntime) -> io::Result<()> {
    let mut input = [0u8; 393216];
    let mut work = [0u8; 2097280];
    let mut out = [0u8; 589829];
    let mut room = [0u64; 524293];
    answer_input(&rt, &mut input, &mut work, &mut out, &mut room)
}
