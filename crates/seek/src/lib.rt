// Finding in the tree of a region: a child by its level, and the nodes of a path.
//
// A child is found by halving its row where it is long. A row's siblings are found by the marks of the region: a byte for each
// unit, at place 64 and the unit's number, with the depth of the row that begins there and 255 where none does.
#![tactic(auto)]

mod children;
mod paths;

pub use children::find_child;
pub use paths::find_path;

// A child of a row: its first unit, the unit behind its row, and the unit behind all below it.
#[derive(Clone, Copy)]
pub struct Child {
    pub node: usize,
    pub end: usize,
    pub past: usize,
}

// Where a search looks next: the first unit of a sibling, a unit that it holds, and how many siblings are passed before the row is halved.
#[derive(Clone, Copy)]
struct Probe {
    node: usize,
    mid: usize,
    few: usize,
}

// The nodes of a path, as far as they are there: the first unit of each, and how many; where the first that is missing would go,
// and where in the text its level begins. Where all are there: the unit behind the last one's row, and one more than the text's length.
#[derive(Clone, Copy)]
pub struct Path {
    pub nodes: [usize; 128],
    pub depth: usize,
    pub place: usize,
    pub from: usize,
}
