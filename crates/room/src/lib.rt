// Making room in a region and taking it away.
#![tactic(auto)]

mod below;
mod chain;
mod counts;
mod cut;
mod make;
mod take;

pub use chain::wanted_for;
pub use cut::stay;
pub use make::{make_chain, make_unit};
pub use take::{take_chain, take_unit};

// What something takes of a region: nodes, pairs, text cells, and units.
#[derive(Clone, Copy)]
pub struct Load {
    pub nodes: usize,
    pub pairs: usize,
    pub cells: usize,
    pub units: usize,
}
