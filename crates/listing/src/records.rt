// The records of a listing, written where there is room.
//
// A filter's text is made of the name's text and a mark for each level. It is written with '/#' behind it: that is the text of the
// filter's '#'; the count that follows a filter's own text overwrites the two bytes.
ghost use Rattle.std.specs.Prelude.{◌≡◌, [], ◌∷◌, ◌++◌, ◌+◌, ◌-◌, ◌*◌, ◌≤◌, length};
ghost use Rattle.lent.specs.Numbers.{bytes};
ghost use Rattle.lent.specs.Parts.{patch};
ghost use Rattle.level.specs.Levels.{split, width};
ghost use Rattle.held.specs.Bytes.{each};
ghost use Rattle.forest.specs.Places.{unit_at};
ghost use Rattle.listing.specs.Trails.{taken, path_at, whole_text};
ghost use Rattle.walk.specs.Nodes.{NodeIn, Below};
ghost use Rattle.listing.specs.Written.{WroteLevel, unit_values, RecordRoom, RecordWritten, HashRoom, HashWritten, BelowWritten, EndWritten};

use walk::{Measured, Node};

// The level that was taken, and a '/'.
fn write_level(out: &mut [u8], at: usize, level: &[u8], mark: u8) -> usize
    requires { at + length (taken mark level.now) + 1 ≤ length out.old }
    ensures { WroteLevel out.old out.new at (taken mark level.now) result }
{
    if mark == 0 {
        lent::copy_in(out, at, level);
        let end = at + level.len();
        out[end] = b'/';
        return end + 1;
    }
    let end = at + 1;
    out[at] = b'+';
    out[end] = b'/';
    end + 1
}

// The text of a path with '/#' behind it.
fn write_text(out: &mut [u8], at: usize, name: &[u8], marks: &[u8], depth: usize)
    requires { (depth ≤ 128) × (length marks.now ≡ 128) × (depth ≤ length (split name.now)) × (at + width (path_at marks.now depth name.now) + 1 ≤ length out.old) }
    ensures { out.new ≡ patch at (whole_text (path_at marks.now depth name.now)) out.old }
{
    let mut from: usize = 0;
    let mut next = at;
    for j in 0..depth {
        let stop = walk::level_stop(name, from);
        next = write_level(out, next, &name[from..stop], marks[j]);
        from = stop + 1;
    }
    out[next] = b'#';
}

// A record's mark, the length of its text, and the text with '/#' behind it.
fn write_head(out: &mut [u8], at: usize, text: usize, name: &[u8], marks: &[u8], depth: usize)
    requires { (depth ≤ 128) × (length marks.now ≡ 128) × (depth ≤ length (split name.now)) × (at + 4 + width (path_at marks.now depth name.now) + 1 ≤ length out.old) }
    ensures { out.new ≡ patch (at + 4) (whole_text (path_at marks.now depth name.now)) (patch at (70 ∷ 77 ∷ bytes 2 text) out.old) }
{
    lent::copy_in(out, at, b"FM");
    lent::put16(out, at + 2, text as u64);
    write_text(out, at + 4, name, marks, depth);
}

// The values of n units, one after another.
fn write_units(out: &mut [u8], at: usize, s: &[u8], base: usize, values: usize, n: usize)
    requires { (unit_at base (values + n) ≤ length s.now) × (at + 4 * n ≤ length out.old) }
    ensures { out.new ≡ patch at (each (bytes 4) (unit_values base s.now values n)) out.old }
{
    for j in 0..n {
        let value = lent::get32(s, base + (values + j) * 16);
        lent::put32(out, at + 4 * j, value);
    }
}

// How many values there are, and the values.
fn write_values(out: &mut [u8], at: usize, s: &[u8], base: usize, values: usize, n: usize)
    requires { (unit_at base (values + n) ≤ length s.now) × (at + (2 + 4 * n) ≤ length out.old) }
    ensures { out.new ≡ patch at (bytes 2 n ++ each (bytes 4) (unit_values base s.now values n)) out.old }
{
    lent::put16(out, at, n as u64);
    write_units(out, at + 2, s, base, values, n);
}

// The record of the values in the units from `values` up to `end`, where there are any, behind what was written before; its text
// is the first `text` bytes of the path's text with '/#' behind it.
pub fn write_record(
    out: &mut [u8],
    before: Measured,
    s: &[u8],
    base: usize,
    values: usize,
    end: usize,
    text: usize,
    name: &[u8],
    marks: &[u8],
    depth: usize,
) -> Measured
    requires { RecordRoom base s.now end text name.now marks.now depth × (before.bytes ≤ length out.old) × (before.records ≤ before.bytes) }
    ensures { RecordWritten base s.now values end text (path_at marks.now depth name.now) out.old out.new before result }
{
    let n = walk::value_count(values, end);
    if n == 0 {
        return before;
    }
    let at = before.bytes;
    let size = 6 + text + 4 * n;
    if out.len() - at < size {
        return before;
    }
    let after = at + 4 + text;
    write_head(out, at, text, name, marks, depth);
    write_values(out, after, s, base, values, n);
    Measured {
        bytes: at + size,
        records: before.records + 1,
    }
}

// The record of a '#' below a path, whose levels take `size` bytes.
pub fn write_hash(
    out: &mut [u8],
    before: Measured,
    s: &[u8],
    base: usize,
    node: Option<Node>,
    size: usize,
    name: &[u8],
    marks: &[u8],
    depth: usize,
) -> Measured
    requires { NodeIn base s.now node × HashRoom size name.now marks.now depth × (before.bytes ≤ length out.old) × (before.records ≤ before.bytes) }
    ensures { HashWritten base s.now node (path_at marks.now depth name.now) out.old out.new before result }
{
    match node {
        Some(node) => write_record(
            out,
            before,
            s,
            base,
            node.values,
            node.end,
            size + 1,
            name,
            marks,
            depth,
        ),
        None => before,
    }
}

// The record of the '#' among the children of a node at a depth, which stand in the units from lo up to hi.
pub fn write_below(
    out: &mut [u8],
    before: Measured,
    s: &[u8],
    base: usize,
    lo: usize,
    hi: usize,
    size: usize,
    name: &[u8],
    marks: &[u8],
    depth: usize,
) -> Measured
    requires { Below base s.now lo hi × HashRoom size name.now marks.now depth × (before.bytes ≤ length out.old) × (before.records ≤ before.bytes) }
    ensures { BelowWritten base s.now lo hi depth (path_at marks.now depth name.now) out.old out.new before result }
{
    let all = walk::hash_child(s, base, lo, hi, depth);
    write_hash(out, before, s, base, all, size, name, marks, depth)
}

// A node's own record, and then that of the '#' among its children.
pub fn write_end(
    out: &mut [u8],
    before: Measured,
    s: &[u8],
    base: usize,
    values: usize,
    end: usize,
    past: usize,
    size: usize,
    name: &[u8],
    marks: &[u8],
    depth: usize,
) -> Measured
    requires { Below base s.now end past × HashRoom size name.now marks.now depth × (before.bytes ≤ length out.old) × (before.records ≤ before.bytes) }
    ensures { EndWritten base s.now values end past depth (path_at marks.now depth name.now) out.old out.new before result }
{
    let text = walk::own_text(size);
    let with_own = write_record(out, before, s, base, values, end, text, name, marks, depth);
    write_below(out, with_own, s, base, end, past, size, name, marks, depth)
}
