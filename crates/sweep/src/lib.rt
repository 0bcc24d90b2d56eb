// Removing all expired records of a store of retained names, in one pass over its rows that moves what stays towards the
// front, in place.
#![tactic(auto)]

mod node;
mod row;
mod rows;
mod whole;

pub use whole::remove_expired;

// What stays of some rows: the unit behind it, and its nodes, pairs and cells.
#[derive(Clone, Copy)]
pub struct Kept {
    pub to: usize,
    pub nodes: usize,
    pub pairs: usize,
    pub cells: usize,
}

// What stays of one row: the units of its head and level, its record or none, and the cells of its level.
#[derive(Clone, Copy)]
pub struct Stay {
    pub units: usize,
    pub own: usize,
    pub cells: usize,
}
