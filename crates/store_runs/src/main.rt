// The cases on stores that document 01 has run, 'Both sides of each line'. What must come out is in `stdout`, and was written from
// document 01.
#![tactic(auto)]

mod case;
mod names;
mod subscriptions;

use std::io;

fn main(rt: HostRuntime) -> io::Result<()> {
    subscriptions::run(&mut rt.stdout())?;
    names::run(&mut rt.stdout())
}
