// Taking room away: a run of units with all that stands in it, and one of a node's units.
ghost use Rattle.std.specs.Prelude.{◌≡◌, ◌+◌, ◌≤◌, ◌<◌, length, take};
ghost use Rattle.forest.specs.Places.{unit_at};
ghost use Rattle.room.specs.Changes.{Under, taken_run, taken_chain, taken_unit};

use crate::{Load, below, counts};

// Takes c units away from unit `at` on, below `depth` nodes, and their marks.
fn take_run(
    s: &mut [u8],
    base: usize,
    n: usize,
    nodes: [usize; 128],
    depth: usize,
    at: usize,
    c: usize,
)
    requires { (depth ≤ 128) × Under n (take depth nodes) × (at + c ≤ n) × (unit_at base n ≤ length s.old) × (64 + n ≤ length s.old) }
    ensures { s.new ≡ taken_run base n (take depth nodes) at c s.old }
{
    below::move_below(s, base, nodes, depth, n, 0, c);
    lent::close_gap(s, base + at * 16, base + (n - c) * 16, c * 16);
    lent::close_gap(s, 64 + at, 64 + (n - c), c);
}

// Takes away whole nodes. `load` is what they took.
pub fn take_chain(
    s: &mut [u8],
    base: usize,
    n: usize,
    nodes: [usize; 128],
    depth: usize,
    at: usize,
    load: Load,
)
    requires { (depth ≤ 128) × Under n (take depth nodes) × (at + load.units ≤ n) × (unit_at base n ≤ length s.old) × (64 + n ≤ length s.old) }
    ensures { s.new ≡ taken_chain base n (take depth nodes) at load s.old }
{
    let units = load.units;
    take_run(s, base, n, nodes, depth, at, units);
    let none = Load {
        nodes: 0,
        pairs: 0,
        cells: 0,
        units: 0,
    };
    counts::move_counts(s, none, load);
}

// Takes away unit `at` of the node at unit `node`, which stands below `depth` nodes.
pub fn take_unit(
    s: &mut [u8],
    base: usize,
    n: usize,
    nodes: [usize; 128],
    depth: usize,
    node: usize,
    at: usize,
)
    requires { (depth ≤ 128) × Under n (take depth nodes) × (node < n) × (at < n) × (unit_at base n ≤ length s.old) × (64 + n ≤ length s.old) }
    ensures { s.new ≡ taken_unit base n (take depth nodes) node at s.old }
{
    counts::move_count(s, base + node * 16 + 2, 0, 1);
    take_run(s, base, n, nodes, depth, at, 1);
    counts::take_pair(s);
}
