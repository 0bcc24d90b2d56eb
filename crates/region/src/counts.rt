// The counts that a region keeps in its header: what is in use. They are read as they stand; whether the region is a store
// is for the caller to test first.
ghost use Rattle.std.specs.Prelude.{◌≡◌, ◌<◌};
ghost use Rattle.lent.specs.Total.{read};

use crate::{Cells, Nodes, Pairs};

pub fn nodes_size(region: &[u8]) -> Nodes
    ensures { (result.0 ≡ read 2 10 region.now) × (result.0 < 65536) }
{
    Nodes(lent::get16(region, 10))
}

// The values of a store of subscriptions, or the names of a store of retained names.
pub fn values_size(region: &[u8]) -> Pairs
    ensures { (result.0 ≡ read 2 12 region.now) × (result.0 < 65536) }
{
    Pairs(lent::get16(region, 12))
}

pub fn cells_size(region: &[u8]) -> Cells
    ensures { (result.0 ≡ read 2 14 region.now) × (result.0 < 65536) }
{
    Cells(lent::get16(region, 14))
}
