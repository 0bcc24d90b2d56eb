// Making room: new nodes of which the last holds a unit, and a unit more for a node.
ghost use Rattle.std.specs.Prelude.{◌≡◌, ◌+◌, ◌≤◌, ◌<◌, length, take};
ghost use Rattle.level.specs.Places.{levels_at};
ghost use Rattle.forest.specs.Places.{unit_at};
ghost use Rattle.room.specs.Runs.{run_units, WantedFor};
ghost use Rattle.room.specs.Changes.{Under, SmallLoad, made_run, made_chain, between, made_unit};

use crate::{Load, below, chain, counts};

// The rows and marks of new nodes for the levels of a text from place `from` on, `units` in all, before unit `place` and below
// `depth` nodes; the last holds `unit`.
fn make_run(
    s: &mut [u8],
    base: usize,
    n: usize,
    nodes: [usize; 128],
    depth: usize,
    place: usize,
    text: &[u8],
    from: usize,
    unit: &[u8],
    units: usize,
)
    requires depth_bound { (depth ≤ 128) × Under n (take depth nodes) × (place ≤ n) × (unit_at base (n + units) ≤ length s.old) × (64 + (n + units) ≤ length s.old) }
    requires units_value { (units ≡ run_units (levels_at text.now from)) × (units < 4294967296) × (length text.now ≤ 65535) × (length unit.now ≡ 16) × (depth + 1 + length (levels_at text.now from) ≤ 256) }
    ensures { s.new ≡ made_run base n (take depth nodes) place (depth + 1) unit.now (levels_at text.now from) units s.old }
{
    below::move_below(s, base, nodes, depth, n, units, 0);
    lent::open_gap(s, base + place * 16, base + n * 16, units * 16);
    chain::put_rows(s, base, place, text, from, units, unit);
    lent::open_gap(s, 64 + place, 64 + n, units);
    chain::put_marks(s, place, text, from, units, depth + 1);
}

// Makes new nodes for the levels of a text from place `from` on. `load` is what they take.
pub fn make_chain(
    s: &mut [u8],
    base: usize,
    n: usize,
    nodes: [usize; 128],
    depth: usize,
    place: usize,
    text: &[u8],
    from: usize,
    unit: &[u8],
    load: Load,
)
    requires depth_bound { (depth ≤ 128) × Under n (take depth nodes) × (place ≤ n) × (unit_at base (n + load.units) ≤ length s.old) × (64 + (n + load.units) ≤ length s.old) }
    requires wanted_for { WantedFor (levels_at text.now from) load × SmallLoad load × (length text.now ≤ 65535) × (length unit.now ≡ 16) × (depth + 1 + length (levels_at text.now from) ≤ 256) }
    ensures { s.new ≡ made_chain base n (take depth nodes) place (depth + 1) unit.now (levels_at text.now from) load s.old }
{
    let units = load.units;
    make_run(s, base, n, nodes, depth, place, text, from, unit, units);
    let none = Load {
        nodes: 0,
        pairs: 0,
        cells: 0,
        units: 0,
    };
    counts::move_counts(s, load, none);
}

// Puts `unit` before unit `at`, and its mark.
fn put_between(s: &mut [u8], base: usize, n: usize, at: usize, unit: &[u8])
    requires { (at ≤ n) × (unit_at base (n + 1) ≤ length s.old) × (64 + (n + 1) ≤ length s.old) × (length unit.now ≡ 16) }
    ensures { s.new ≡ between base n at unit.now s.old }
{
    lent::open_gap(s, base + at * 16, base + n * 16, 16);
    lent::copy_in(s, base + at * 16, unit);
    lent::open_gap(s, 64 + at, 64 + n, 1);
    lent::fill(s, 64 + at, 1, 255);
}

// Puts `unit` before unit `at`, for the node at unit `node`, which stands below `depth` nodes.
pub fn make_unit(
    s: &mut [u8],
    base: usize,
    n: usize,
    nodes: [usize; 128],
    depth: usize,
    node: usize,
    at: usize,
    unit: &[u8],
)
    requires { (depth ≤ 128) × Under n (take depth nodes) × (node < n) × (at ≤ n) × (unit_at base (n + 1) ≤ length s.old) × (64 + (n + 1) ≤ length s.old) × (length unit.now ≡ 16) }
    ensures { s.new ≡ made_unit base n (take depth nodes) node at unit.now s.old }
{
    below::move_below(s, base, nodes, depth, n, 1, 0);
    counts::move_count(s, base + node * 16 + 2, 1, 0);
    put_between(s, base, n, at, unit);
    counts::add_pair(s);
}
