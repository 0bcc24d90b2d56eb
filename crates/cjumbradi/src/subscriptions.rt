// The calls on a store of subscriptions: changes, listings and counts.
ghost use Rattle.std.specs.Prelude.{length};
ghost use Rattle.refusal.specs.Refusals.{◌at◌};
ghost use Rattle.held.specs.Room.{node_count};
ghost use Rattle.held.specs.Subscriptions.{insert, remove};
ghost use Rattle.edit.specs.Calls.{Calls};
ghost use Rattle.trie.specs.Calls.{held_in, subscription_store};
ghost use Rattle.trie.specs.Listings.{Asks, Lists};
ghost use Rattle.region.specs.Store.{SubscriptionStore};
ghost use Rattle.edit.specs.Counts.{Counts};
ghost use Rattle.cjumbradi.specs.Calls.{of_matched};
ghost use Rattle.cjumbradi.specs.Stores.{of_changed, of_listed, of_outcome, Tells};

use crate::telling::{tell_changed, tell_listed, tell_matched, tell_nodes, tell_pairs};

pub fn cjumbradi_insert(region: &mut [u8], filter: &[u8], value: u32, answer: &mut u64) -> u64
    ensures { Tells of_changed (Calls subscription_store (insert filter.now value) region.old region.new) (result at answer.new) }
{
    tell_changed(trie::insert(region, filter, value), answer)
}

pub fn cjumbradi_remove(region: &mut [u8], filter: &[u8], value: u32, answer: &mut u64) -> u64
    ensures { Tells of_changed (Calls subscription_store (remove filter.now value) region.old region.new) (result at answer.new) }
{
    tell_changed(trie::remove(region, filter, value), answer)
}

pub fn cjumbradi_is_match(region: &[u8], name: &[u8], yes: &mut u64) -> u64
    ensures { Tells of_matched (Asks region.now name.now) (result at yes.new) }
{
    tell_matched(trie::is_match(region, name), yes)
}

pub fn cjumbradi_listing(
    region: &[u8],
    name: &[u8],
    out: &mut [u8],
    bytes: &mut u64,
    records: &mut u64,
) -> u64
    ensures { Tells of_listed (Lists region.now name.now out.old out.new) (result at bytes.new, records.new) }
{
    tell_listed(trie::matches(region, name, out), bytes, records)
}

pub fn cjumbradi_nodes_size(region: &[u8], value: &mut u64) -> u64
    ensures { Tells of_outcome (Counts (SubscriptionStore region.now) (node_count (held_in region.now))) (result at value.new) }
{
    tell_nodes(trie::nodes_size(region), value)
}

pub fn cjumbradi_values_size(region: &[u8], value: &mut u64) -> u64
    ensures { Tells of_outcome (Counts (SubscriptionStore region.now) (length (held_in region.now))) (result at value.new) }
{
    tell_pairs(trie::values_size(region), value)
}
