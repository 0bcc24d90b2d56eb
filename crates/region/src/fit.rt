// Whether there is room for something in a store: nodes are compared with nodes, pairs with pairs, cells with cells. And how
// many cells a level takes.
ghost use Rattle.std.specs.Prelude.{◌≡◌, ◌+◌, ◌≤◌, ◌<◌, false, length};
ghost use Rattle.held.specs.Room.{level_cells, full_rules};
ghost use Rattle.topic.specs.Answers.{checked};
ghost use Rattle.lent.specs.Total.{read};
ghost use Rattle.region.specs.Opening.{room_of};

use crate::{Capacities, Cells, Nodes, Pairs, counts};
use refusal::Refusal;

// Room for so much more than is in use, where the capacities are c.
pub fn room_for(
    region: &[u8],
    c: Capacities,
    nodes: Nodes,
    pairs: Pairs,
    cells: Cells,
) -> Result<(), Refusal>
    requires { (nodes.0 < 4294967296) × (pairs.0 < 4294967296) × (cells.0 < 4294967296) }
    ensures { result ≡ checked (full_rules (room_of c) false (read 2 10 region.now + nodes.0) (read 2 12 region.now + pairs.0) (read 2 14 region.now + cells.0)) }
{
    if c.nodes.0 < counts::nodes_size(region).0 + nodes.0 {
        return Err(Refusal::NodesFull);
    }
    if c.pairs.0 < counts::values_size(region).0 + pairs.0 {
        return Err(Refusal::PairsFull);
    }
    if c.cells.0 < counts::cells_size(region).0 + cells.0 {
        return Err(Refusal::TextFull);
    }
    Ok(())
}

// The text cells of a level: '+' and '#' take none.
pub fn cells_of(level: &[u8]) -> usize
    ensures { (result ≡ level_cells level.now) × (length level.now ≤ 65535 → result ≤ 4096) }
{
    if level::is_only(level, b'+') || level::is_only(level, b'#') {
        return 0;
    }
    level.len().div_ceil(16)
}
