// The call that gives a page of all names that have not expired by now: the region is tested, then the walk is made.
ghost use Rattle.region.specs.Shapes.{UnitsOf};
ghost use Rattle.std.specs.Prelude.{◌≡◌, Bool, ltb, ◌+◌};
ghost use Rattle.retain.specs.Lookups.{Pages, PagesKnown};

use crate::Page;
use refusal::Refusal;
use region::{Kind, Shape};

// More follows when the true sum of offset and limit is below the total; the sum is not made, for it may be no u64.
fn more_follows(offset: u64, limit: u64, total: usize) -> bool
    ensures { result ≡ ltb (offset + limit) total }
{
    let all = total as u64;
    offset <= all && limit < all - offset
}

// A page into a buffer, in the units of a store. It is measured before it is written.
fn page_in(
    s: &[u8],
    base: usize,
    n: usize,
    room: usize,
    clock: u64,
    offset: u64,
    limit: u64,
    out: &mut [u8],
) -> Result<Page, Refusal>
    requires { UnitsOf s.now base n room }
    ensures { PagesKnown s.now clock offset limit out.old out.new result }
{
    let found = lookup::measure(s, base, n, b"#", clock, offset, limit);
    let bytes = found.bytes;
    let more = more_follows(offset, limit, found.total);
    if out.len() < bytes {
        return Err(Refusal::ShortRoom { needed: bytes });
    }
    pages::write_all(s, base, n, b"#", clock, offset, limit, out);
    Ok(Page {
        bytes,
        records: found.records,
        more,
    })
}

// Of the lookup of `#`, `offset` records are skipped and at most `limit` given, as records in the order of the names.
pub fn get_all_paginated(
    region: &[u8],
    clock: u64,
    offset: u64,
    limit: u64,
    out: &mut [u8],
) -> Result<Page, Refusal>
    ensures { Pages region.now clock offset limit out.old out.new result }
{
    if !audit::is_store(region, Kind::Retained) {
        return Err(Refusal::NotAStore);
    }
    get_all_paginated_known(region, clock, offset, limit, out)
}

// The same without the test of the region.
pub fn get_all_paginated_known(
    region: &[u8],
    clock: u64,
    offset: u64,
    limit: u64,
    out: &mut [u8],
) -> Result<Page, Refusal>
    ensures { PagesKnown region.now clock offset limit out.old out.new result }
{
    let Some(Shape { base, used, room }) = region::shape_of(region) else {
        return Err(Refusal::NotAStore);
    };
    page_in(region, base, used, room, clock, offset, limit, out)
}
