// Which nodes of a path stay when the one thing that its last node holds is taken away.
ghost use Rattle.std.specs.Prelude.{◌≡◌, ◌+◌, ◌≤◌, ◌<◌, length, take};
ghost use Rattle.forest.specs.Places.{unit_at};
ghost use Rattle.room.specs.Changes.{Under};
ghost use Rattle.room.specs.Stay.{lone_at, staying};

// The node at unit i holds nothing, and the one at unit k is its only child.
fn is_lone(s: &[u8], base: usize, n: usize, i: usize, k: usize) -> bool
    requires { (i < n) × (k < n) × (unit_at base n ≤ length s.now) }
    ensures { result ≡ lone_at base s.now n i k }
{
    let parent = forest::row_at(s, base, i, n);
    let child = forest::row_at(s, base, k, n);
    if parent.own == 0 {
        if parent.end == k {
            return parent.past == child.past;
        }
    }
    false
}

// How many of the first `depth` nodes stay: those above the first that goes.
pub fn stay(s: &[u8], base: usize, n: usize, nodes: [usize; 128], depth: usize) -> usize
    requires { (0 < depth) × (depth ≤ 128) × Under n (take depth nodes) × (unit_at base n ≤ length s.now) }
    ensures { (result ≡ staying base s.now n (take depth nodes)) × (result < depth) }
{
    for c in (1..depth).rev() {
        if !is_lone(s, base, n, nodes[c - 1], nodes[c]) {
            return c;
        }
    }
    0
}
