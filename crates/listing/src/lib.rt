// The listing for a name, written record by record.
//
// A record's text is the name's text with some levels replaced by '+', so the walk keeps a mark for each level and copies no path.
// Whatever the bytes of the region are, nothing is written past the buffer and its length stays.
#![tactic(auto)]

mod records;
mod writing;

pub use writing::write_all;
