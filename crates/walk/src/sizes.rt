// How many bytes and records a listing has.
ghost use Rattle.std.specs.Prelude.{◌≡◌, ◌+◌, ◌-◌, ◌≤◌, min, length};
ghost use Rattle.level.specs.Levels.{split};
ghost use Rattle.level.specs.Places.{levels_at};
ghost use Rattle.held.specs.Stream.{list_bytes, list_count};
ghost use Rattle.forest.specs.Places.{unit_at};
ghost use Rattle.walk.specs.Nodes.{NodeIn, Listed, values_in};
ghost use Rattle.walk.specs.Steps.{Steps, Sizing};
ghost use Rattle.walk.specs.Sizes.{nothing, Sized, RecordSized, HashSized, Sizes};

use crate::{Measured, Node, nodes};

// How many values stand in the units from values up to end. A row has no more than its head can say.
pub fn value_count(values: usize, end: usize) -> usize
    ensures { result ≡ min (end - values) 65535 }
{
    end.saturating_sub(values).min(65535)
}

// The text of a node's own filter: its levels, without the '/' after the last.
pub fn own_text(size: usize) -> usize
    ensures { result ≡ size - 1 }
{
    size.saturating_sub(1)
}

// With one record more, where there are values.
fn record_size(before: Measured, values: usize, end: usize, text: usize) -> Measured
    requires { text ≤ 4294967296 }
    ensures { RecordSized before values end text result }
{
    let n = value_count(values, end);
    if n == 0 {
        return before;
    }
    Measured {
        bytes: before.bytes.saturating_add(6 + text + 4 * n),
        records: before.records.saturating_add(1),
    }
}

fn hash_size(before: Measured, node: Option<Node>, size: usize) -> Measured
    requires { size ≤ 4294967295 }
    ensures { HashSized before node size result }
{
    match node {
        Some(node) => record_size(before, node.values, node.end, size + 1),
        None => before,
    }
}

// From a node at a depth, with the levels of the name from a place on. The levels of its path take `size` bytes.
fn sizes(
    before: Measured,
    s: &[u8],
    base: usize,
    node: Option<Node>,
    depth: usize,
    name: &[u8],
    from: usize,
    size: usize,
) -> Measured
    requires { NodeIn base s.now node × Steps name.now depth from × Sizing name.now from size }
    ensures { Sizes before base s.now depth node size (levels_at name.now from) result }
{
    let Some(Node { values, end, past }) = node else {
        return before;
    };
    let all = nodes::hash_child(s, base, end, past, depth);
    if name.len() < from {
        let with_own = record_size(before, values, end, own_text(size));
        return hash_size(with_own, all, size);
    }
    let with_all = hash_size(before, all, size);
    let t = nodes::go_on(s, base, end, past, depth, name, from);
    let any = t.any;
    let own = t.own;
    let stop = t.stop;
    let below = depth + 1;
    let next = stop + 1;
    let long = size + (stop - from) + 1;
    let with_any = sizes(with_all, s, base, any, below, name, next, size + 2);
    sizes(with_any, s, base, own, below, name, next, long)
}

// The listing for a name of the filters that a region holds in its units from 0 up to n.
pub fn measure(s: &[u8], base: usize, n: usize, name: &[u8]) -> Measured
    requires { (unit_at base n ≤ length s.now) × (64 + n ≤ base) × (length name.now ≤ 65535) }
    ensures { Listed base s.now n → Sized nothing (length (list_bytes (split name.now) (values_in base s.now n))) (list_count (split name.now) (values_in base s.now n)) result }
{
    let none = Measured {
        bytes: 0,
        records: 0,
    };
    let t = nodes::begin(s, base, n, name);
    let node = t.node;
    sizes(none, s, base, node, t.depth, name, t.from, t.from)
}
