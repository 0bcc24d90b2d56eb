// Changing a store along the path of a text, whatever its kind: the tests for room, then the change.
//
// A node holds units of 16 bytes: values, or a record. What is put in or taken away is such a unit, alone or with the nodes that
// it needs.
#![tactic(auto)]

mod adding;
mod taking;

pub use adding::{add_chain, add_unit};
pub use taking::{is_alone, take_path, take_unit};

// What a listing or a lookup has: so many bytes and records.
#[derive(Clone, Copy)]
pub struct Listed {
    pub bytes: usize,
    pub records: usize,
}
