// The calls that change a store: the region is tested, then the text, then the change is made.
//
// A caller that knows the region to be a store may leave out the test of it: on other bytes such a call ends and writes only in
// the region, but its answer is open.
ghost use Rattle.held.specs.Subscriptions.{insert, remove};
ghost use Rattle.edit.specs.Calls.{Calls, Does};
ghost use Rattle.trie.specs.Calls.{subscription_store};

use crate::{inserting, removing};
use refusal::Refusal;
use region::Kind;

// Puts a value at a filter: 1 if it is new there, 0 if it was held already.
pub fn insert(region: &mut [u8], filter: &[u8], value: u32) -> Result<u64, Refusal>
    ensures { Calls subscription_store (insert filter.now value) region.old region.new result }
{
    if !audit::is_store(region, Kind::Subscriptions) {
        return Err(Refusal::NotAStore);
    }
    insert_known(region, filter, value)
}

// The same without the test of the region.
pub fn insert_known(region: &mut [u8], filter: &[u8], value: u32) -> Result<u64, Refusal>
    ensures { Does subscription_store (insert filter.now value) region.old region.new result }
{
    topic::is_valid_topic_filter(filter)?;
    inserting::insert_accepted(region, filter, value)
}

// Takes a value away from a filter: 1 if it was held, else 0.
pub fn remove(region: &mut [u8], filter: &[u8], value: u32) -> Result<u64, Refusal>
    ensures { Calls subscription_store (remove filter.now value) region.old region.new result }
{
    if !audit::is_store(region, Kind::Subscriptions) {
        return Err(Refusal::NotAStore);
    }
    remove_known(region, filter, value)
}

// The same without the test of the region.
pub fn remove_known(region: &mut [u8], filter: &[u8], value: u32) -> Result<u64, Refusal>
    ensures { Does subscription_store (remove filter.now value) region.old region.new result }
{
    topic::is_valid_topic_filter(filter)?;
    removing::remove_accepted(region, filter, value)
}
