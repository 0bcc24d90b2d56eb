// Topic names and filters (`topic.rs` of the Rust): parsing, the three validity tests, the three prefix tests, and
// whether one filter takes one name. Every call takes all bytes; what it refuses, it refuses by a `Refusal`.
#![tactic(auto)]

mod faults;
mod matching;
mod parsing;
mod prefixes;
mod validity;

pub use matching::matches;
pub use parsing::{level_kind, level_part, level_place, parse};
pub use prefixes::{is_exclusive_subscription, is_limit_subscription, is_shared_subscription};
pub use validity::{is_valid_subscription_filter, is_valid_topic_filter, is_valid_topic_name};
