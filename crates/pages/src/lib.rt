// The lookup of retained names, written record by record.
//
// The walk keeps the first unit of each row of its path, and a name's text is written level by level from the region's own bytes.
// Whatever the bytes of the region are, nothing is written past the buffer and its length stays.
#![tactic(auto)]

mod records;
mod texts;
mod writing;

pub use writing::write_all;

// What is asked: of the units of a region, which begin at `base` and of which n are in use, the names at a time, and the page of
// them.
#[derive(Clone, Copy)]
pub struct Ask {
    pub base: usize,
    pub n: usize,
    pub clock: u64,
    pub offset: u64,
    pub limit: u64,
}

// How far the writing has come: the place in the buffer, and the number of the next record.
#[derive(Clone, Copy)]
pub struct Spot {
    pub at: usize,
    pub number: usize,
}
