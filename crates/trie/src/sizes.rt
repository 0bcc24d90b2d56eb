// The counts of a store, as its header has them: the region is tested.
ghost use Rattle.std.specs.Prelude.{length};
ghost use Rattle.held.specs.Room.{node_count};
ghost use Rattle.region.specs.Store.{SubscriptionStore};
ghost use Rattle.edit.specs.Counts.{Counts};
ghost use Rattle.trie.specs.Calls.{held_in};
ghost use Rattle.trie.specs.Sizes.{nodes_told, values_told};

use refusal::Refusal;
use region::{Kind, Nodes, Pairs};

pub fn nodes_size(region: &[u8]) -> Result<Nodes, Refusal>
    ensures { Counts (SubscriptionStore region.now) (node_count (held_in region.now)) (nodes_told result) }
{
    if !audit::is_store(region, Kind::Subscriptions) {
        return Err(Refusal::NotAStore);
    }
    Ok(region::nodes_size(region))
}

pub fn values_size(region: &[u8]) -> Result<Pairs, Refusal>
    ensures { Counts (SubscriptionStore region.now) (length (held_in region.now)) (values_told result) }
{
    if !audit::is_store(region, Kind::Subscriptions) {
        return Err(Refusal::NotAStore);
    }
    Ok(region::values_size(region))
}
