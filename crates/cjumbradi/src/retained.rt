// The calls on a store of retained names: setting and erasing, lookups and pages, the sweep of what has expired, and the count.
ghost use Rattle.std.specs.Prelude.{◌≡◌, length};
ghost use Rattle.refusal.specs.Refusals.{◌at◌};
ghost use Rattle.held.specs.Retained.{set, sweep};
ghost use Rattle.region.specs.Store.{RetainedStore};
ghost use Rattle.edit.specs.Calls.{Calls};
ghost use Rattle.edit.specs.Counts.{Counts};
ghost use Rattle.retain.specs.Calls.{held_in, retained_store, stored_as};
ghost use Rattle.retain.specs.Lookups.{Looks, Pages};
ghost use Rattle.cjumbradi.specs.Stores.{of_changed, of_listed, of_paged, of_outcome, Tells};
ghost use Rattle.cjumbradi.specs.Moments.{given_moment};

use crate::telling::{tell_changed, tell_listed, tell_paged, tell_pairs};

// A moment as a caller gives it.
pub fn moment_given(expires: u64, moment: u64) -> Option<u64>
    ensures { result ≡ given_moment expires moment }
{
    if expires == 0 { None } else { Some(moment) }
}

pub fn cjumbradi_set(
    region: &mut [u8],
    name: &[u8],
    payload: u64,
    handle: u32,
    expires: u64,
    moment: u64,
    answer: &mut u64,
) -> u64
    ensures { Tells of_changed (Calls retained_store (set name.now payload (stored_as handle (given_moment expires moment))) region.old region.new) (result at answer.new) }
{
    let when = moment_given(expires, moment);
    tell_changed(retain::set(region, name, payload, handle, when), answer)
}

pub fn cjumbradi_lookup(
    region: &[u8],
    filter: &[u8],
    clock: u64,
    out: &mut [u8],
    bytes: &mut u64,
    records: &mut u64,
) -> u64
    ensures { Tells of_listed (Looks region.now filter.now clock out.old out.new) (result at bytes.new, records.new) }
{
    tell_listed(retain::get(region, filter, clock, out), bytes, records)
}

pub fn cjumbradi_page(
    region: &[u8],
    clock: u64,
    offset: u64,
    limit: u64,
    out: &mut [u8],
    bytes: &mut u64,
    records: &mut u64,
    more: &mut u64,
) -> u64
    ensures { Tells of_paged (Pages region.now clock offset limit out.old out.new) (result at bytes.new, records.new, more.new) }
{
    let page = retain::get_all_paginated(region, clock, offset, limit, out);
    tell_paged(page, bytes, records, more)
}

pub fn cjumbradi_sweep(region: &mut [u8], clock: u64, removed: &mut u64) -> u64
    ensures { Tells of_changed (Calls retained_store (sweep clock) region.old region.new) (result at removed.new) }
{
    tell_changed(retain::remove_expired(region, clock), removed)
}

pub fn cjumbradi_count(region: &[u8], value: &mut u64) -> u64
    ensures { Tells of_outcome (Counts (RetainedStore region.now) (length (held_in region.now))) (result at value.new) }
{
    tell_pairs(retain::count(region), value)
}
