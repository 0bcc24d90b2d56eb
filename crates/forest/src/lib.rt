// The tree in a region: reading its rows.
//
// A row is known by the number of its first unit. `base` is where the units begin. Whatever the bytes are, a row's `end` and
// `past` never lead beyond unit `n`; its `len` and `own` are as the bytes say.
#![tactic(auto)]

mod levels;
mod rows;

pub use levels::compare;
pub use rows::{level_at, row_at};

// A node's row of units: the length of its level, how many it holds, the unit behind it, and the unit behind all below it.
#[derive(Clone, Copy)]
pub struct Row {
    pub len: usize,
    pub own: usize,
    pub end: usize,
    pub past: usize,
}
