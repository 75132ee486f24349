// The program `mark`, run on 65,537 bytes, one too many. It stays a twin: a program has one input for its test.
#![tactic(auto)]

use std::io;

fn main(rt: HostRuntime) -> io::Result<()> {
    serving::serve(&rt)
}
