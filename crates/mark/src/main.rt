// The program: a first line and a text from standard input, the answer to standard output.
#![tactic(auto)]

use std::io;

fn main(rt: HostRuntime) -> io::Result<()> {
    serving::serve(&rt)
}
