// The test of a region: whether it is a store. One pass over its units decides it.
#![tactic(auto)]

mod placed;
mod rows;
mod whole;
mod written;

pub use whole::is_store;

// What the header promises and the rows passed have not had: nodes, pairs and cells.
#[derive(Clone, Copy)]
pub struct Left {
    pub nodes: usize,
    pub pairs: usize,
    pub cells: usize,
}

// The numbers of a row's head: the length of its level, how many it holds, the units below it, and one that is 0.
#[derive(Clone, Copy)]
pub struct Head {
    pub len: usize,
    pub own: usize,
    pub below: usize,
    pub spare: usize,
}
