// The cases on texts that document 01 has run, 'Both sides of each line'. What must come out is in `stdout`, and was written from
// document 01.
#![tactic(auto)]

mod saying;
mod texts;

use std::io;

fn main(rt: HostRuntime) -> io::Result<()> {
    texts::run(&mut rt.stdin(), &mut rt.stdout())
}
