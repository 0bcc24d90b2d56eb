// What the programs share: printing to a writer, records too, reading into a buffer, the words of a line, and decimal numbers.
#![tactic(auto)]

mod numbers;
mod reading;
mod records;
mod saying;
mod words;

pub use numbers::number_of;
pub use reading::read_full;
pub use records::{say_listing, say_lookup};
pub use saying::{Shown, bad_line, say, say_checked, say_number, say_refusal, say_result};
pub use words::{find, split_word, word_and_rest};
