// What a region's header says: its capacities, and where its units stand.
ghost use Rattle.std.specs.Prelude.{◌≡◌};
ghost use Rattle.region.specs.Shapes.{ShapeOf, CapacitiesOf};

use crate::{Capacities, Cells, Nodes, Pairs, Shape};

pub fn capacities_of(region: &[u8]) -> Capacities
    ensures { CapacitiesOf region.now result }
{
    Capacities {
        nodes: Nodes(lent::get16(region, 4)),
        pairs: Pairs(lent::get16(region, 6)),
        cells: Cells(lent::get16(region, 8)),
    }
}

// Whatever the bytes are, the units that it tells of lie in the region; none where the header is no store's.
pub fn shape_of(region: &[u8]) -> Option<Shape>
    ensures { ShapeOf region.now result }
{
    let nodes = lent::get16(region, 4) as usize;
    let pairs = lent::get16(region, 6) as usize;
    let cells = lent::get16(region, 8) as usize;
    let used = lent::get16(region, 16) as usize;
    let room = nodes + pairs + cells;
    if region.len() < 64 + 17 * room || room < used {
        return None;
    }
    Some(Shape {
        base: 64 + room,
        used,
        room,
    })
}
