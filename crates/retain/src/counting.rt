// How many names a store holds, as its header has it: the region is tested. Expired records that were not swept count.
ghost use Rattle.std.specs.Prelude.{length};
ghost use Rattle.region.specs.Store.{RetainedStore};
ghost use Rattle.edit.specs.Counts.{Counts};
ghost use Rattle.retain.specs.Calls.{held_in};
ghost use Rattle.retain.specs.Counted.{names_told};

use refusal::Refusal;
use region::{Kind, Pairs};

pub fn count(region: &[u8]) -> Result<Pairs, Refusal>
    ensures { Counts (RetainedStore region.now) (length (held_in region.now)) (names_told result) }
{
    if !audit::is_store(region, Kind::Retained) {
        return Err(Refusal::NotAStore);
    }
    Ok(region::values_size(region))
}
