// The calls on a store of subscriptions, without the test of the region.
ghost use Rattle.refusal.specs.Refusals.{◌at◌};
ghost use Rattle.held.specs.Subscriptions.{insert, remove};
ghost use Rattle.edit.specs.Calls.{Does};
ghost use Rattle.trie.specs.Calls.{subscription_store};
ghost use Rattle.trie.specs.Listings.{AsksKnown, ListsKnown};
ghost use Rattle.cjumbradi.specs.Calls.{of_matched};
ghost use Rattle.cjumbradi.specs.Stores.{of_changed, of_listed, Tells};

use cjumbradi::{tell_changed, tell_listed, tell_matched};

#[unsafe(no_mangle)]
pub extern "C" fn cjumbradi_known_insert(
    region: &mut [u8],
    filter: &[u8],
    value: u32,
    answer: &mut u64,
) -> u64
    ensures { Tells of_changed (Does subscription_store (insert filter.now value) region.old region.new) (result at answer.new) }
{
    tell_changed(trie::insert_known(region, filter, value), answer)
}

#[unsafe(no_mangle)]
pub extern "C" fn cjumbradi_known_remove(
    region: &mut [u8],
    filter: &[u8],
    value: u32,
    answer: &mut u64,
) -> u64
    ensures { Tells of_changed (Does subscription_store (remove filter.now value) region.old region.new) (result at answer.new) }
{
    tell_changed(trie::remove_known(region, filter, value), answer)
}

#[unsafe(no_mangle)]
pub extern "C" fn cjumbradi_known_is_match(region: &[u8], name: &[u8], yes: &mut u64) -> u64
    ensures { Tells of_matched (AsksKnown region.now name.now) (result at yes.new) }
{
    tell_matched(trie::is_match_known(region, name), yes)
}

#[unsafe(no_mangle)]
pub extern "C" fn cjumbradi_known_listing(
    region: &[u8],
    name: &[u8],
    out: &mut [u8],
    bytes: &mut u64,
    records: &mut u64,
) -> u64
    ensures { Tells of_listed (ListsKnown region.now name.now out.old out.new) (result at bytes.new, records.new) }
{
    tell_listed(trie::matches_known(region, name, out), bytes, records)
}
