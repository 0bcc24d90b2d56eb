// The listing itself, written record by record.
ghost use Rattle.std.specs.Prelude.{◌+◌, ◌≤◌, length};
ghost use Rattle.level.specs.Levels.{split};
ghost use Rattle.held.specs.Stream.{list_bytes, list_count};
ghost use Rattle.forest.specs.Places.{unit_at};
ghost use Rattle.walk.specs.Nodes.{NodeIn, Listed, values_in};
ghost use Rattle.walk.specs.Sizes.{nothing};
ghost use Rattle.listing.specs.Trails.{Trail};
ghost use Rattle.listing.specs.Written.{Added, Walked};

use crate::records;
use walk::{Measured, Node};

// From a node at a depth, with the levels of the name from a place on. The levels of its path take `size` bytes. A level that '+'
// takes has a mark.
fn write_walk(
    s: &[u8],
    base: usize,
    node: Option<Node>,
    depth: usize,
    name: &[u8],
    from: usize,
    size: usize,
    marks: &mut [u8],
    out: &mut [u8],
    before: Measured,
) -> Measured
    requires { NodeIn base s.now node × Trail name.now marks.old depth from size × (before.bytes ≤ length out.old) × (before.records ≤ before.bytes) }
    ensures { Walked base s.now node name.now marks.old marks.new depth from out.old out.new before result }
{
    let Some(Node { values, end, past }) = node else {
        return before;
    };
    if name.len() < from {
        return records::write_end(
            out, before, s, base, values, end, past, size, name, marks, depth,
        );
    }
    if 128 <= depth {
        return before;
    }
    let next = records::write_below(out, before, s, base, end, past, size, name, marks, depth);
    let t = walk::go_on(s, base, end, past, depth, name, from);
    let any = t.any;
    let own = t.own;
    let stop = t.stop;
    let below = depth + 1;
    let beyond = stop + 1;
    let wide = size + 2;
    let long = size + (stop - from) + 1;
    marks[depth] = 1;
    let then = write_walk(s, base, any, below, name, beyond, wide, marks, out, next);
    marks[depth] = 0;
    write_walk(s, base, own, below, name, beyond, long, marks, out, then)
}

// The listing for a name of the filters that a region holds in its units from 0 up to n, where the buffer has room for it; and
// how many bytes and records were written.
pub fn write_all(s: &[u8], base: usize, n: usize, name: &[u8], out: &mut [u8]) -> Measured
    requires { (unit_at base n ≤ length s.now) × (64 + n ≤ base) × (length name.now ≤ 65535) }
    ensures { Listed base s.now n → Added out.old out.new nothing (list_bytes (split name.now) (values_in base s.now n)) (list_count (split name.now) (values_in base s.now n)) result }
{
    let mut marks: [u8; 128] = [0; 128];
    let none = Measured {
        bytes: 0,
        records: 0,
    };
    let t = walk::begin(s, base, n, name);
    let node = t.node;
    write_walk(
        s, base, node, t.depth, name, t.from, t.from, &mut marks, out, none,
    )
}
