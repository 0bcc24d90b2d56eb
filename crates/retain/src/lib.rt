// The store of retained names: one record for each name, a handle and a moment at which it expires, or none.
#![tactic(auto)]

mod asking;
mod calls;
mod counting;
mod erasing;
mod paging;
mod setting;
mod slots;
mod units;

pub use asking::{get, get_known};
pub use calls::{remove_expired, remove_expired_known, set, set_known};
pub use counting::count;
pub use paging::{get_all_paginated, get_all_paginated_known};

// What a page has: so many bytes and records, and whether more follows.
#[derive(Clone, Copy)]
pub struct Page {
    pub bytes: usize,
    pub records: usize,
    pub more: bool,
}
