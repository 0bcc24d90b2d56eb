// Numbers of two bytes that grow and fall with what a region holds.
ghost use Rattle.std.specs.Prelude.{◌≡◌, ◌<◌};
ghost use Rattle.room.specs.Changes.{SmallLoad, moved, counted, counts_moved, no_load, one_load};

use crate::Load;

// So many more, and so many less; 0 where that would be below 0.
fn moved_by(x: u64, more: usize, less: usize) -> u64
    requires { (x < 65536) × (more < 4294967296) }
    ensures { result ≡ moved more less x }
{
    let most = x + more as u64;
    if most < less as u64 {
        0
    } else {
        most - less as u64
    }
}

pub fn move_count(s: &mut [u8], at: usize, more: usize, less: usize)
    requires { more < 4294967296 }
    ensures { s.new ≡ counted at more less s.old }
{
    let count = lent::get16(s, at);
    lent::put16(s, at, moved_by(count, more, less));
}

// The header's counts of what is in use.
pub fn move_counts(s: &mut [u8], more: Load, less: Load)
    requires { SmallLoad more }
    ensures { s.new ≡ counts_moved more less s.old }
{
    move_count(s, 10, more.nodes, less.nodes);
    move_count(s, 12, more.pairs, less.pairs);
    move_count(s, 14, more.cells, less.cells);
    move_count(s, 16, more.units, less.units);
}

// A pair more, and a pair less: each has one unit.
pub fn add_pair(s: &mut [u8])
    ensures { s.new ≡ counts_moved one_load no_load s.old }
{
    let none = Load {
        nodes: 0,
        pairs: 0,
        cells: 0,
        units: 0,
    };
    let one = Load {
        nodes: 0,
        pairs: 1,
        cells: 0,
        units: 1,
    };
    move_counts(s, one, none);
}

pub fn take_pair(s: &mut [u8])
    ensures { s.new ≡ counts_moved no_load one_load s.old }
{
    let none = Load {
        nodes: 0,
        pairs: 0,
        cells: 0,
        units: 0,
    };
    let one = Load {
        nodes: 0,
        pairs: 1,
        cells: 0,
        units: 1,
    };
    move_counts(s, none, one);
}
