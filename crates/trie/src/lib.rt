// The store of subscriptions: filters with their values.
#![tactic(auto)]

mod asking;
mod calls;
mod inserting;
mod removing;
mod sizes;
mod slots;
mod values;

pub use asking::{is_match, is_match_known, matches, matches_known};
pub use calls::{insert, insert_known, remove, remove_known};
pub use sizes::{nodes_size, values_size};
