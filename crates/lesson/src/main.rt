// The course's program. It reads lines `sub V F`, `unsub V F` and `match T` from standard input, keeps the subscriptions in one
// store, and answers each line when it is entered.
#![tactic(auto)]

mod answers;
mod lines;
mod words;

use answers::Course;
use region::{Capacities, Cells, Kind, Nodes, Pairs};
use std::io;

// Nothing stands between an answer and standard output, so it is there before the next line is read.
fn main(rt: HostRuntime) -> io::Result<()> {
    let mut course = Course {
        output: rt.stdout(),
        store: [0; 26176],
        room: [0; 65536],
    };
    let most = Capacities {
        nodes: Nodes(512),
        pairs: Pairs(512),
        cells: Cells(512),
    };
    match region::open(&mut course.store, Kind::Subscriptions, most) {
        Ok(()) => lines::run(&mut rt.stdin(), &mut course),
        Err(refusal) => answers::say_refusal(&mut course.output, refusal),
    }
}
