// The replay of what the Rust answered: standard input has a call on each line, the program makes it and prints the library's
// answer on a line. In `stdout` stand the answers of the Rust; README.md says how both files were made.
#![tactic(auto)]

mod lines;
mod retained;
mod saying;
mod subscriptions;
mod texts;

use std::io;

// The whole input has to fit. A store for 2,048 nodes, 512 pairs and 4,096 cells needs 64 + 17 * 6656 bytes.
fn main(rt: HostRuntime) -> io::Result<()> {
    let mut input: [u8; 196608] = [0; 196608];
    let mut store: [u8; 113216] = [0; 113216];
    let n = program::read_full(&mut rt.stdin(), &mut input)?;
    lines::run(&mut rt.stdout(), &input[..n], &mut store)
}
