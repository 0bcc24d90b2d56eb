// The lookup of retained names: a walk over the rows of a region, and what its records take.
//
// Visiting a node counts its own record and goes down to the row of its children; a row visits its siblings, one after another.
// The depth left falls by one from a row to the next. A level of the filter that is no wildcard is found by halving, so that only one
// node of its row is visited. Each record has a number, from 0 on; a page gives those from `offset` on, at most `limit` of them.
// Whatever the bytes are, a walk ends and stays within the units.
#![tactic(auto)]

mod lives;
mod sizes;
mod spans;
mod steps;

pub use lives::life_at;
pub use sizes::{in_page, measure};
pub use spans::{along_row, is_hidden};
pub use steps::ends_at;

// What is asked: the names at a time, and the page of them.
#[derive(Clone, Copy)]
pub struct Query {
    pub clock: u64,
    pub offset: u64,
    pub limit: u64,
}

// What a lookup takes: the bytes and number of the records in its page, and the number of all its records.
#[derive(Clone, Copy)]
pub struct Found {
    pub bytes: usize,
    pub records: usize,
    pub total: usize,
}

// What was passed so far: the bytes of the records in the page, and the number of all.
#[derive(Clone, Copy)]
pub struct Tally {
    pub bytes: usize,
    pub total: usize,
}

// The level of a filter that begins at a place: where it ends, where the levels begin that are left below it, and whether it is a
// wildcard.
#[derive(Clone, Copy)]
struct Step {
    stop: usize,
    next: usize,
    wild: bool,
}

// Units of a row, from one up to another.
#[derive(Clone, Copy)]
struct Span {
    lo: usize,
    hi: usize,
}

// How a row is walked: in the units from one up to another, with the levels of the filter from a place on for what is below it,
// and with names that begin with '$' barred or not.
#[derive(Clone, Copy)]
pub struct Along {
    pub lo: usize,
    pub hi: usize,
    pub next: usize,
    pub barred: bool,
}
