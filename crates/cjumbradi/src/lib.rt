// The C interface. Each call returns the number of the refusal, 0 for none, and hands a value back: what it found, or the
// place of the refusal. include/cjumbradi.h says the same to a caller in C or Rust.
#![tactic(auto)]

mod regions;
mod retained;
mod subscriptions;
mod telling;
mod texts;

// How a moment is given and an answer is told, for crates that offer the same calls in another form.
pub use retained::moment_given;
pub use telling::{tell_changed, tell_listed, tell_matched, tell_paged};

// The calls themselves.
pub use regions::{cjumbradi_needed, cjumbradi_open_retained, cjumbradi_open_subscriptions};
pub use retained::{
    cjumbradi_count, cjumbradi_lookup, cjumbradi_page, cjumbradi_set, cjumbradi_sweep,
};
pub use subscriptions::{
    cjumbradi_insert, cjumbradi_is_match, cjumbradi_listing, cjumbradi_nodes_size,
    cjumbradi_remove, cjumbradi_values_size,
};
pub use texts::{
    cjumbradi_is_exclusive_subscription, cjumbradi_is_limit_subscription,
    cjumbradi_is_shared_subscription, cjumbradi_is_valid_subscription_filter,
    cjumbradi_is_valid_topic_filter, cjumbradi_is_valid_topic_name, cjumbradi_level_kind,
    cjumbradi_level_part, cjumbradi_matches, cjumbradi_parse,
};
