// What a row of units has: its level, and the units of what its node holds. Each is tested as it stands.
#![tactic(auto)]

mod levels;
mod units;

pub use levels::{is_short_plain, level_is_sound};
pub use units::{all_are, own_is_sound};
