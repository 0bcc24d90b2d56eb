// The calls that change a store: the region is tested, then the name, then the change is made.
//
// A caller that knows the region to be a store may leave out the test of it: on other bytes such a call ends and writes only in
// the region, but its answer is open.
ghost use Rattle.region.specs.Shapes.{UnitsOf};
ghost use Rattle.held.specs.Retained.{set, sweep};
ghost use Rattle.edit.specs.Calls.{Calls, Does};
ghost use Rattle.retain.specs.Calls.{retained_store, stored_as};

use crate::{erasing, setting};
use refusal::Refusal;
use region::{Kind, Shape};

// Sets the record of a name, which expires at a moment in milliseconds of the caller's clock, or never: 1 if the name is new, 2 if its record was replaced. With a payload of length 0 the name is erased:
// 3 if it was held, 4 if not.
pub fn set(
    region: &mut [u8],
    name: &[u8],
    payload: u64,
    handle: u32,
    moment: Option<u64>,
) -> Result<u64, Refusal>
    ensures { Calls retained_store (set name.now payload (stored_as handle moment)) region.old region.new result }
{
    if !audit::is_store(region, Kind::Retained) {
        return Err(Refusal::NotAStore);
    }
    set_known(region, name, payload, handle, moment)
}

// The same without the test of the region.
pub fn set_known(
    region: &mut [u8],
    name: &[u8],
    payload: u64,
    handle: u32,
    moment: Option<u64>,
) -> Result<u64, Refusal>
    ensures { Does retained_store (set name.now payload (stored_as handle moment)) region.old region.new result }
{
    topic::is_valid_topic_name(name)?;
    if payload == 0 {
        return erasing::erase_accepted(region, name);
    }
    setting::set_accepted(region, name, handle, moment)
}

// In the units of a store.
fn sweep_in(s: &mut [u8], base: usize, n: usize, room: usize, clock: u64) -> Result<u64, Refusal>
    requires { UnitsOf s.old base n room }
    ensures { Does retained_store (sweep clock) s.old s.new result }
{
    let gone = sweep::remove_expired(s, base, n, clock);
    Ok(gone as u64)
}

// Removes every record that has expired by now, and answers how many. It is one pass over the store.
pub fn remove_expired(region: &mut [u8], clock: u64) -> Result<u64, Refusal>
    ensures { Calls retained_store (sweep clock) region.old region.new result }
{
    if !audit::is_store(region, Kind::Retained) {
        return Err(Refusal::NotAStore);
    }
    remove_expired_known(region, clock)
}

// The same without the test of the region.
pub fn remove_expired_known(region: &mut [u8], clock: u64) -> Result<u64, Refusal>
    ensures { Does retained_store (sweep clock) region.old region.new result }
{
    let Some(Shape { base, used, room }) = region::shape_of(region) else {
        return Err(Refusal::NotAStore);
    };
    sweep_in(region, base, used, room, clock)
}
