// Taking away from a region: a unit of a node, or the nodes that go with it.
ghost use Rattle.std.specs.Prelude.{◌≡◌, ◌+◌, ◌*◌, ◌≤◌, ◌<◌, length, take};
ghost use Rattle.forest.specs.Places.{unit_at};
ghost use Rattle.room.specs.Changes.{Under};
ghost use Rattle.edit.specs.Taking.{alone_in, PathTaken, OneLess};

use refusal::Refusal;

// The node at a unit holds one unit and has no child.
pub fn is_alone(s: &[u8], base: usize, n: usize, node: usize) -> bool
    requires { (node < n) × (unit_at base n ≤ length s.now) }
    ensures { result ≡ alone_in base s.now n node }
{
    let row = forest::row_at(s, base, node, n);
    if row.own == 1 {
        return row.end == row.past;
    }
    false
}

// The nodes of a text that go with the one unit that the last of them holds; that is answered by a number.
pub fn take_path(
    s: &mut [u8],
    base: usize,
    n: usize,
    nodes: [usize; 128],
    depth: usize,
    text: &[u8],
    answer: u64,
) -> Result<u64, Refusal>
    requires { (0 < depth) × (depth ≤ 128) × Under n (take depth nodes) × (64 + n ≤ base) × (base + n * 16 ≤ length s.old) × (length text.now ≤ 65535) }
    ensures { PathTaken s.old base n nodes depth text.now answer s.new result }
{
    let stay = room::stay(s, base, n, nodes, depth);
    let at = nodes[stay];
    let load = room::wanted_for(text, level::level_start(text, stay));
    let units = load.units;
    if n <= at {
        return Err(Refusal::NotAStore);
    }
    if n - at < units {
        return Err(Refusal::NotAStore);
    }
    room::take_chain(s, base, n, nodes, stay, at, load);
    Ok(answer)
}

// A unit that the node at unit `node` holds, where the node stays.
pub fn take_unit(
    s: &mut [u8],
    base: usize,
    n: usize,
    nodes: [usize; 128],
    last: usize,
    node: usize,
    at: usize,
    answer: u64,
) -> Result<u64, Refusal>
    requires { (last ≤ 128) × Under n (take last nodes) × (node < n) × (64 + n ≤ base) × (base + n * 16 ≤ length s.old) }
    ensures { OneLess s.old base n (take last nodes) node at answer s.new result }
{
    if n <= at {
        return Err(Refusal::NotAStore);
    }
    room::take_unit(s, base, n, nodes, last, node, at);
    Ok(answer)
}
