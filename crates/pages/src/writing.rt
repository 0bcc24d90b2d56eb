// The lookup itself, written record by record.
ghost use Rattle.std.specs.Prelude.{◌≡◌, [], ◌+◌, ◌-◌, ◌≤◌, ◌<◌, length};
ghost use Rattle.lent.specs.Parts.{patch};
ghost use Rattle.level.specs.Levels.{split};
ghost use Rattle.level.specs.Places.{levels_at};
ghost use Rattle.topic.specs.Match.{lead_wild};
ghost use Rattle.held.specs.Stream.{row_bytes};
ghost use Rattle.forest.specs.Places.{unit_at};
ghost use Rattle.walk.specs.Nodes.{Below};
ghost use Rattle.lookup.specs.Standing.{stored_in, Looked, NodeIn};
ghost use Rattle.pages.specs.Paths.{Trail};
ghost use Rattle.pages.specs.Written.{query_of, NodeWritten, RowWritten};

use crate::records::write_own;
use crate::{Ask, Spot};
use forest::Row;

// The node at unit i with all below it, where the filter has the levels from `next` on for what is below. The levels of the
// path to it take `size` bytes. Where no level is left of 128 the walk stops.
#[cycle(row_visit)]
fn visit(
    spot: Spot,
    out: &mut [u8],
    path: &mut [usize; 128],
    s: &[u8],
    ask: Ask,
    i: usize,
    node: Row,
    left: usize,
    filter: &[u8],
    next: usize,
    size: usize,
) -> Spot
    requires { NodeIn ask.base s.now i node × (node.past ≤ ask.n) × (next ≤ length filter.now + 1) × Trail ask.base s.now ask.n path.old left size × (spot.at ≤ length out.old) × (spot.number ≤ i) }
    ensures { NodeWritten (query_of ask) ask.base s.now ask.n left i node (levels_at filter.now next) path.old path.new out.old out.new spot result }
{
    if left == 0 {
        return spot;
    }
    let end = node.end;
    let past = node.past;
    let below = left - 1;
    let level = forest::level_at(s, ask.base, i, ask.n);
    let text = size + level.len();
    let long = text + 1;
    let at = (i + (node.len + 23) / 16).min(end);
    path[128 - left] = i;
    let own = write_own(spot, out, path, s, ask, at, end, below, filter, next, text);
    row(own, out, path, s, ask, end, past, below, filter, next, long)
}

// The siblings in the units from `lo` up to `hi`, with the levels of the filter from a place on.
#[cycle(row_visit)]
fn row(
    spot: Spot,
    out: &mut [u8],
    path: &mut [usize; 128],
    s: &[u8],
    ask: Ask,
    lo: usize,
    hi: usize,
    left: usize,
    filter: &[u8],
    from: usize,
    size: usize,
) -> Spot
    requires { Below ask.base s.now lo hi × (hi ≤ ask.n) × (hi < 4294967296) × (from ≤ length filter.now + 1) × Trail ask.base s.now ask.n path.old left size × (spot.at ≤ length out.old) × (spot.number ≤ lo) }
    ensures { RowWritten (query_of ask) ask.base s.now ask.n left lo hi (levels_at filter.now from) path.old path.new out.old out.new spot result }
{
    let base = ask.base;
    let walk = lookup::along_row(s, base, lo, hi, left, filter, from);
    let next = walk.next;
    let end = walk.hi;
    let barred = walk.barred;
    let mut sum = spot;
    // Nothing is counted here: each row says where its next sibling begins.
    let mut i = walk.lo;
    while i < end {
        let node = forest::row_at(s, base, i, end);
        let past = node.past;
        if lookup::is_hidden(s, base, i, end, barred) {
            i = past;
            continue;
        }
        sum = visit(sum, out, path, s, ask, i, node, left, filter, next, size);
        i = past;
    }
    sum
}

// The page of the lookup of a filter among the names that a region holds in its units from 0 up to n, where the buffer has room
// for it.
pub fn write_all(
    s: &[u8],
    base: usize,
    n: usize,
    filter: &[u8],
    clock: u64,
    offset: u64,
    limit: u64,
    out: &mut [u8],
)
    requires { (unit_at base n ≤ length s.now) × (64 + n ≤ base) × (n < 4294967296) }
    ensures { Looked base s.now n → length (row_bytes clock offset limit 0 [] (lead_wild (split filter.now)) (split filter.now) (stored_in base s.now n)) ≤ length out.old
        → out.new ≡ patch 0 (row_bytes clock offset limit 0 [] (lead_wild (split filter.now)) (split filter.now) (stored_in base s.now n)) out.old }
{
    let mut path: [usize; 128] = [0; 128];
    let ask = Ask {
        base,
        n,
        clock,
        offset,
        limit,
    };
    let start = Spot { at: 0, number: 0 };
    row(start, out, &mut path, s, ask, 0, n, 128, filter, 0, 0);
}
