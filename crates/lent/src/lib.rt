// Numbers, parts, copies and gaps in lent bytes. A number stands with its high byte first. Every function takes all places: what does not fit within the bytes reads as 0 and writes nothing.
#![tactic(auto)]

mod moves;
mod numbers;

pub use moves::{close_gap, copy_in, fill, open_gap};
pub use numbers::{get16, get32, get64, put16, put32, put64};
