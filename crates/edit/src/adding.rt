// Adding to a region: a unit for a node, or nodes with a unit at their end; if there is room.
ghost use Rattle.std.specs.Prelude.{◌≤◌, ◌<◌, ◌≡◌, length, take};
ghost use Rattle.level.specs.Levels.{split};
ghost use Rattle.region.specs.Shapes.{UnitsOf};
ghost use Rattle.seek.specs.PathFound.{PathFound};
ghost use Rattle.room.specs.Changes.{Under, made_unit};
ghost use Rattle.edit.specs.Adding.{Added, ChainAdded};

use refusal::Refusal;
use region::{Cells, Nodes, Pairs};
use seek::Path;

// A unit before unit `at`, for the node at unit `node`, which stands below `last` nodes.
pub fn add_unit(
    s: &mut [u8],
    base: usize,
    n: usize,
    room: usize,
    nodes: [usize; 128],
    last: usize,
    node: usize,
    at: usize,
    unit: &[u8],
) -> Result<u64, Refusal>
    requires { UnitsOf s.old base n room × (last ≤ 128) × Under n (take last nodes) × (node < n) × (at ≤ n) × (length unit.now ≡ 16) }
    ensures { Added s.old n room 0 0 1 (made_unit base n (take last nodes) node at unit.now s.old) s.new result }
{
    region::room_for(s, region::capacities_of(s), Nodes(0), Pairs(1), Cells(0))?;
    if room < n + 1 {
        return Err(Refusal::NotAStore);
    }
    room::make_unit(s, base, n, nodes, last, node, at, unit);
    Ok(1)
}

// New nodes for the levels of a text that are missing, of which the last holds a unit.
pub fn add_chain(
    s: &mut [u8],
    base: usize,
    n: usize,
    room: usize,
    p: Path,
    text: &[u8],
    unit: &[u8],
) -> Result<u64, Refusal>
    requires { UnitsOf s.old base n room × PathFound base s.old n text.now p × (length text.now ≤ 65535) × (length (split text.now) ≤ 128) × (length unit.now ≡ 16) }
    ensures { ChainAdded s.old base n room p text.now unit.now s.new result }
{
    let from = p.from;
    let load = room::wanted_for(text, from);
    let units = load.units;
    region::room_for(
        s,
        region::capacities_of(s),
        Nodes(load.nodes as u64),
        Pairs(1),
        Cells(load.cells as u64),
    )?;
    if room - n < units {
        return Err(Refusal::NotAStore);
    }
    let nodes = p.nodes;
    room::make_chain(s, base, n, nodes, p.depth, p.place, text, from, unit, load);
    Ok(1)
}
