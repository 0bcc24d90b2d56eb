// The units below the nodes of a path, put right for a change further down.
ghost use Rattle.std.specs.Prelude.{◌≡◌, ◌+◌, ◌≤◌, ◌<◌, [], ◌∷◌, length, take};
ghost use Rattle.forest.specs.Places.{unit_at};
ghost use Rattle.room.specs.Changes.{Under, belows};

use crate::counts;

// Puts right the units below one node.
fn move_one(s: &mut [u8], base: usize, i: usize, n: usize, more: usize, less: usize)
    requires { (i < n) × (unit_at base n ≤ length s.old) × (more < 4294967296) }
    ensures { s.new ≡ belows more less base (i ∷ []) s.old }
{
    counts::move_count(s, base + i * 16 + 4, more, less);
}

// Puts right the units below the first `count` of these nodes.
pub fn move_below(
    s: &mut [u8],
    base: usize,
    nodes: [usize; 128],
    count: usize,
    n: usize,
    more: usize,
    less: usize,
)
    requires { (count ≤ 128) × (unit_at base n ≤ length s.old) × Under n (take count nodes) × (more < 4294967296) }
    ensures { s.new ≡ belows more less base (take count nodes) s.old }
{
    for j in 0..count {
        let i = nodes[j];
        move_one(s, base, i, n, more, less);
    }
}
