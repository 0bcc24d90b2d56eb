// What a lookup's records take.
ghost use Rattle.std.specs.Prelude.{◌≡◌, ◌+◌, ◌-◌, ◌*◌, ◌≤◌, ◌<◌, min, length};
ghost use Rattle.level.specs.Levels.{split};
ghost use Rattle.level.specs.Places.{levels_at};
ghost use Rattle.held.specs.Stream.{in_page};
ghost use Rattle.forest.specs.Places.{unit_at};
ghost use Rattle.walk.specs.Nodes.{Below};
ghost use Rattle.lookup.specs.Standing.{NodeIn};
ghost use Rattle.lookup.specs.Sizes.{LiveTold, OwnTold, NodeTold, RowTold, Measured};

use crate::{Found, Query, Tally, lives, spans, steps};
use forest::Row;

// A record's number lies in the page.
pub fn in_page(number: u64, offset: u64, limit: u64) -> bool
    ensures { result ≡ in_page offset limit number }
{
    offset <= number && number - offset < limit
}

// With the record in unit `at`, unless it has expired, under a name of `text` bytes. What is not in the page is only counted.
fn live(before: Tally, s: &[u8], base: usize, at: usize, text: usize, query: Query) -> Tally
    requires { (unit_at base at + 16 ≤ length s.now) × (text ≤ 8388608) × (before.total < 4294967296) × (before.bytes ≤ 8388624 * 4294967296) }
    ensures { LiveTold query before base s.now at text result }
{
    let Some(_) = lives::life_at(s, base, at, query.clock) else {
        return before;
    };
    let total = before.total + 1;
    if in_page(before.total as u64, query.offset, query.limit) {
        return Tally {
            bytes: before.bytes + 16 + text,
            total,
        };
    }
    Tally {
        bytes: before.bytes,
        total,
    }
}

// With what a node holds, in the units from `at` up to `end`, unless the filter has more levels.
fn own(
    before: Tally,
    s: &[u8],
    base: usize,
    at: usize,
    end: usize,
    filter: &[u8],
    next: usize,
    text: usize,
    query: Query,
) -> Tally
    requires { (unit_at base end ≤ length s.now) × (text ≤ 8388608) × (before.total < 4294967296) × (before.bytes ≤ 8388624 * 4294967296) }
    ensures { OwnTold query before base s.now at end (levels_at filter.now next) text result }
{
    if end <= at {
        return before;
    }
    if steps::ends_at(filter, next) {
        return live(before, s, base, at, text, query);
    }
    before
}

// The node at unit i with all below it, where the filter has the levels from `next` on for what is below. The levels of the
// path to it take `size` bytes. No store is deeper than 128 levels; where none is left the walk stops.
#[cycle(row_visit)]
fn visit(
    before: Tally,
    s: &[u8],
    base: usize,
    i: usize,
    node: Row,
    left: usize,
    filter: &[u8],
    next: usize,
    size: usize,
    query: Query,
) -> Tally
    requires { NodeIn base s.now i node × (left ≤ 128) × (next ≤ length filter.now + 1) × (size ≤ 65536 * (128 - left)) × (before.total ≤ i) × (before.bytes ≤ 8388624 * i) }
    ensures { NodeTold query before base s.now left i node (levels_at filter.now next) size result }
{
    if left == 0 {
        return before;
    }
    let end = node.end;
    let past = node.past;
    let below = left - 1;
    let text = size + node.len;
    let long = text + 1;
    let at = (i + (node.len + 23) / 16).min(end);
    let sum = own(before, s, base, at, end, filter, next, text, query);
    row(sum, s, base, end, past, below, filter, next, long, query)
}

// The siblings in the units from `lo` up to `hi`, with the levels of the filter from a place on.
#[cycle(row_visit)]
fn row(
    before: Tally,
    s: &[u8],
    base: usize,
    lo: usize,
    hi: usize,
    left: usize,
    filter: &[u8],
    from: usize,
    size: usize,
    query: Query,
) -> Tally
    requires { Below base s.now lo hi × (hi < 4294967296) × (left ≤ 128) × (from ≤ length filter.now + 1) × (size ≤ 65536 * (128 - left)) × (before.total ≤ lo) × (before.bytes ≤ 8388624 * lo) }
    ensures { RowTold query before base s.now left lo hi (levels_at filter.now from) size result }
{
    let walk = spans::along_row(s, base, lo, hi, left, filter, from);
    let next = walk.next;
    let end = walk.hi;
    let barred = walk.barred;
    let mut sum = before;
    // Nothing is counted here: each row says where its next sibling begins.
    let mut i = walk.lo;
    while i < end {
        let node = forest::row_at(s, base, i, end);
        let past = node.past;
        if spans::is_hidden(s, base, i, end, barred) {
            i = past;
            continue;
        }
        sum = visit(sum, s, base, i, node, left, filter, next, size, query);
        i = past;
    }
    sum
}

// How many of so many records lie in the page.
fn given(total: usize, offset: u64, limit: u64) -> usize
    ensures { result ≡ min limit (total - offset) }
{
    (total as u64).saturating_sub(offset).min(limit) as usize
}

// The lookup of a filter among the names that a region holds in its units from 0 up to n.
pub fn measure(
    s: &[u8],
    base: usize,
    n: usize,
    filter: &[u8],
    clock: u64,
    offset: u64,
    limit: u64,
) -> Found
    requires { (unit_at base n ≤ length s.now) × (64 + n ≤ base) × (n < 4294967296) }
    ensures { Measured clock offset limit base s.now n (split filter.now) result }
{
    let none = Tally { bytes: 0, total: 0 };
    let query = Query {
        clock,
        offset,
        limit,
    };
    let all = row(none, s, base, 0, n, 128, filter, 0, 0, query);
    let total = all.total;
    Found {
        bytes: all.bytes,
        records: given(total, offset, limit),
        total,
    }
}
