// The rows of units, one after another: what stays of each is moved down behind what stays of those before it.
ghost use Rattle.std.specs.Prelude.{◌+◌, ◌*◌, ◌≤◌, ◌<◌, length};
ghost use Rattle.forest.specs.Places.{unit_at, RowAt};
ghost use Rattle.sweep.specs.Swept.{NodeSwept, RowsSwept};

use crate::{Kept, node};
use forest::Row;

// The deepest level that a store has.
const DEEPEST: usize = 128;

// The node of the row that begins at unit i, with all below it; `kept` is what stays of the rows before it.
#[cycle(sweep_node_sweep_rows)]
fn sweep_node(
    s: &mut [u8],
    base: usize,
    i: usize,
    hi: usize,
    row: Row,
    kept: Kept,
    depth: usize,
    clock: u64,
) -> Kept
    requires { RowAt base s.old i hi row × (i < hi) × (kept.to ≤ i) × (kept.nodes ≤ i) × (kept.pairs ≤ i) × (kept.cells ≤ 4096 * i) × (unit_at base hi ≤ length s.old) × (64 + hi ≤ base) × (hi < 4294967296) × (depth ≤ 128) }
    ensures { NodeSwept clock base depth i hi row.past s.old s.new kept result }
{
    let to = kept.to;
    let end = row.end;
    let past = row.past;
    let stay = node::begin_node(s, base, i, hi, row, to, depth, clock);
    let first = to + stay.units + stay.own;
    let below = sweep_rows(s, base, end, past, first, depth + 1, clock);
    node::end_node(s, base, stay, kept, below)
}

// The rows of the units from `lo` up to `hi`, at a depth. What stays is written from unit `to` on.
#[cycle(sweep_node_sweep_rows)]
pub fn sweep_rows(
    s: &mut [u8],
    base: usize,
    lo: usize,
    hi: usize,
    to: usize,
    depth: usize,
    clock: u64,
) -> Kept
    requires { (to ≤ lo) × (lo ≤ hi) × (unit_at base hi ≤ length s.old) × (64 + hi ≤ base) × (hi < 4294967296) }
    ensures { RowsSwept clock base depth lo hi to s.old s.new result }
{
    let mut kept = Kept {
        to,
        nodes: 0,
        pairs: 0,
        cells: 0,
    };
    if DEEPEST < depth {
        return kept;
    }
    // Nothing is counted here: each row says where its next sibling begins.
    let mut i = lo;
    while i < hi {
        let row = forest::row_at(s, base, i, hi);
        let past = row.past;
        kept = sweep_node(s, base, i, hi, row, kept, depth, clock);
        i = past;
    }
    kept
}
