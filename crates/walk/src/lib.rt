// The listing for a name: a walk down the tree of a region, along the name's levels.
//
// From a node the walk takes the child '#', then the child '+', then the child with the name's next level; where the name ends,
// the node itself and then its child '#'. A first level that begins with '$' is taken only as it is. Whatever the bytes are, a
// walk ends and stays within the units; no store is deeper than 128, and there a walk stops.
#![tactic(auto)]

mod bounds;
mod hits;
mod nodes;
mod sizes;

pub use bounds::most_bytes;
pub use hits::has_match;
pub use nodes::{begin, go_on, hash_child, level_stop};
pub use sizes::{measure, own_text, value_count};

// A node: the unit where its values begin, the unit behind them, where its children begin, and the unit behind all below it.
#[derive(Clone, Copy)]
pub struct Node {
    pub values: usize,
    pub end: usize,
    pub past: usize,
}

// Where a listing's walk begins: a node, its depth, and where in the name the level below it begins.
#[derive(Clone, Copy)]
pub struct Start {
    pub node: Option<Node>,
    pub depth: usize,
    pub from: usize,
}

// Where a walk goes on: to the child '+', and to the child with the name's level, which ends at `stop`.
#[derive(Clone, Copy)]
pub struct Step {
    pub any: Option<Node>,
    pub own: Option<Node>,
    pub stop: usize,
}

// What a listing takes.
#[derive(Clone, Copy)]
pub struct Measured {
    pub bytes: usize,
    pub records: usize,
}
