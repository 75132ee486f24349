// The program's work: from the bytes that it reads to the bytes that it writes.
#![tactic(auto)]

mod asking;
mod telling;

ghost use Rattle.std.specs.Prelude.{◌≤◌, length};
ghost use Rattle.calculus.specs.Bounds.{program_cap};
ghost use Rattle.calculus.specs.Outcomes.{reduced};
ghost use Rattle.calculus.specs.Program.{report, done, program_of};
ghost use Rattle.calculus.proofs.Putting.{Puts};
ghost use Rattle.term.specs.Notations.{notation_of};
ghost use Rattle.orders.specs.Orders.{order_of};
ghost use Rattle.io.specs.Counts.{IsPrefixLen};
ghost use Rattle.marking.specs.Answers.{Lays};
ghost use Rattle.marking.specs.Asking.{job_of};
ghost use Rattle.marking.specs.Working.{most_word, most_line, most_output};
ghost use Rattle.marking.specs.Working.{Workable, Printable, Reports};

use asking::Job;
use nodes::runs::End;
use orders::Order;
use printer::putting::put;
use telling::{put_line, put_refusal, put_term};
use term::{Notation, Refusal};

// The most bytes that the program reads.
pub const MOST_INPUT: usize = 65536;

// The program's cap, and what a cap of so many nodes asks for.
const CAP: u64 = 1024;

const OUTPUT: usize = 9216;

const ROOM: usize = 8192;

// The most bytes that it writes: a line of 19 bytes, and 20 bytes for each node and a line feed.
pub const MOST_OUTPUT: usize = 20500;

// The two lines of a run that reached a term.
#[tactic(auto, using(crate::proofs::Lines::term_fits))]
fn report_run(word: &[u8], steps: u64, notation: Notation, s: &[u8], out: &mut [u8]) -> usize
    requires { (length word.now ≤ most_word) × Printable s.now most_line out.old }
    ensures { Reports word.now steps (notation_of notation) s.now out.old
        result out.new }
{
    let text = put_line(out, word, steps);
    let end = put_term(out, text, notation, s);
    put(out, end, b'\n')
}

// A term that was read is reduced, and what became of it reported.
// its parameters stay apart: a job's text is read by now, so that a struct would be one more, no plainer
fn reduce(
    order: Order,
    limit: u64,
    notation: Notation,
    s: &[u8],
    room: &mut [u64],
    out: &mut [u8],
) -> usize
    requires { Workable limit room.old out.old }
    ensures { Puts out.old 0
        (report (notation_of notation) (reduced (order_of order) limit program_cap s.now))
        result out.new }
{
    // an array, as below: no heap
    let mut reached = [0u8; OUTPUT];
    match reduction::reducing::reduce(order, limit, CAP, s, &mut reached, room) {
        Ok(run) => {
            let s = &reached[..run.length];
            match run.end {
                End::Finished => report_run(b"finished", run.steps, notation, s, out),
                End::Unfinished => report_run(b"unfinished", run.steps, notation, s, out),
            }
        }
        Err(stopped) => put_refusal(out, stopped.why),
    }
}

// What the first line asks for, of the text after it: a limit out of bounds is refused before the text is read.
fn do_job(job: Job, out: &mut [u8]) -> usize
    requires { most_output ≤ length out.old }
    ensures { Puts out.old 0 (done (job_of job.entry)) result out.new }
{
    let Job {
        order,
        limit,
        notation,
        text,
    } = job;
    if !reduction::reducing::allowed(limit) {
        return put_refusal(out, Refusal::OutsideBounds);
    }
    let mut coded = [0u8; OUTPUT];
    let mut room = [0u64; ROOM];
    match parser::parse(notation, CAP, text, &mut coded, &mut room) {
        Ok(length) => reduce(order, limit, notation, &coded[..length], &mut room, out),
        Err(why) => put_refusal(out, why),
    }
}

// Too many bytes are TextTooLong, before the first line is looked at; a malformed one is OutsideBounds.
#[tactic(auto, using(crate::proofs::Programs::long_told))]
pub fn mark(input: &[u8], out: &mut [u8; MOST_OUTPUT]) -> usize
    ensures lays { Lays (program_of input.now) out.old result out.new }
    ensures prefix_len { IsPrefixLen result out.new }
{
    if MOST_INPUT < input.len() {
        return put_refusal(out, Refusal::TextTooLong);
    }
    match asking::first_line(input) {
        None => put_refusal(out, Refusal::OutsideBounds),
        Some(job) => do_job(job, out),
    }
}
