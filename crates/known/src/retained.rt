// The calls on a store of retained names, without the test of the region.
ghost use Rattle.refusal.specs.Refusals.{◌at◌};
ghost use Rattle.held.specs.Retained.{set, sweep};
ghost use Rattle.edit.specs.Calls.{Does};
ghost use Rattle.retain.specs.Calls.{retained_store, stored_as};
ghost use Rattle.retain.specs.Lookups.{LooksKnown, PagesKnown};
ghost use Rattle.cjumbradi.specs.Stores.{of_changed, of_listed, of_paged, Tells};
ghost use Rattle.cjumbradi.specs.Moments.{given_moment};

use cjumbradi::{moment_given, tell_changed, tell_listed, tell_paged};

#[unsafe(no_mangle)]
pub extern "C" fn cjumbradi_known_set(
    region: &mut [u8],
    name: &[u8],
    payload: u64,
    handle: u32,
    expires: u64,
    moment: u64,
    answer: &mut u64,
) -> u64
    ensures { Tells of_changed (Does retained_store (set name.now payload (stored_as handle (given_moment expires moment))) region.old region.new) (result at answer.new) }
{
    let when = moment_given(expires, moment);
    tell_changed(
        retain::set_known(region, name, payload, handle, when),
        answer,
    )
}

#[unsafe(no_mangle)]
pub extern "C" fn cjumbradi_known_lookup(
    region: &[u8],
    filter: &[u8],
    clock: u64,
    out: &mut [u8],
    bytes: &mut u64,
    records: &mut u64,
) -> u64
    ensures { Tells of_listed (LooksKnown region.now filter.now clock out.old out.new) (result at bytes.new, records.new) }
{
    tell_listed(
        retain::get_known(region, filter, clock, out),
        bytes,
        records,
    )
}

#[unsafe(no_mangle)]
pub extern "C" fn cjumbradi_known_page(
    region: &[u8],
    clock: u64,
    offset: u64,
    limit: u64,
    out: &mut [u8],
    bytes: &mut u64,
    records: &mut u64,
    more: &mut u64,
) -> u64
    ensures { Tells of_paged (PagesKnown region.now clock offset limit out.old out.new) (result at bytes.new, records.new, more.new) }
{
    let page = retain::get_all_paginated_known(region, clock, offset, limit, out);
    tell_paged(page, bytes, records, more)
}

#[unsafe(no_mangle)]
pub extern "C" fn cjumbradi_known_sweep(region: &mut [u8], clock: u64, removed: &mut u64) -> u64
    ensures { Tells of_changed (Does retained_store (sweep clock) region.old region.new) (result at removed.new) }
{
    tell_changed(retain::remove_expired_known(region, clock), removed)
}
