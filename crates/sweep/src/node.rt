// A node before its children are swept, and after.
ghost use Rattle.std.specs.Prelude.{◌≡◌, ◌+◌, ◌-◌, ◌*◌, ◌≤◌, ◌<◌, ◌++◌, length};
ghost use Rattle.lent.specs.Numbers.{bytes};
ghost use Rattle.lent.specs.Parts.{patch};
ghost use Rattle.forest.specs.Places.{unit_at, RowAt};
ghost use Rattle.sweep.specs.Moved.{Begun, ended};

use crate::{Kept, Stay, row};
use forest::Row;

// Moves what stays of the row that begins at unit i down to unit `to`.
pub fn begin_node(
    s: &mut [u8],
    base: usize,
    i: usize,
    hi: usize,
    row: Row,
    to: usize,
    depth: usize,
    clock: u64,
) -> Stay
    requires { RowAt base s.old i hi row × (i < hi) × (to ≤ i) × (unit_at base hi ≤ length s.old) × (64 + hi ≤ base) × (depth ≤ 128) }
    ensures { Begun clock base depth i hi row to s.old s.new result }
{
    let end = row.end;
    let units = ((row.len + 23) / 16).min(end - i);
    let own = row::record_stays(s, base, i + units, end, clock);
    let cells = row::cells_at(s, base, i, hi);
    row::move_row(s, base, i, to, units + own, depth);
    Stay { units, own, cells }
}

// Puts right the head of a node of whose children `below` stays, and counts the node, if it holds a record or has a child:
// else it is gone, and what stays is what stayed before it.
pub fn end_node(s: &mut [u8], base: usize, stay: Stay, kept: Kept, below: Kept) -> Kept
    requires { (unit_at base kept.to + 8 ≤ length s.old) × (kept.to + stay.units + stay.own ≤ below.to) × (stay.own ≤ 1) × (stay.cells ≤ 4096) × (kept.nodes + below.nodes ≤ 4294967296) × (kept.pairs + below.pairs ≤ 4294967296) × (kept.cells + below.cells ≤ 4096 * 4294967296) }
    ensures { (s.new ≡ patch (unit_at base kept.to + 2) (bytes 2 stay.own ++ bytes 2 (below.to - (kept.to + stay.units + stay.own))) s.old) × (result ≡ ended kept stay below) }
{
    let to = kept.to;
    let own = stay.own;
    let under = below.to - (to + stay.units + own);
    row::put_head(s, base + to * 16, own, under);
    if own + under == 0 {
        return kept;
    }
    Kept {
        to: below.to,
        nodes: kept.nodes + below.nodes + 1,
        pairs: kept.pairs + below.pairs + own,
        cells: kept.cells + below.cells + stay.cells,
    }
}
