// One row: whether its record stays, the row moved down, and its head put right.
ghost use Rattle.std.specs.Prelude.{◌≡◌, ◌+◌, ◌*◌, ◌≤◌, ◌<◌, ◌++◌, length};
ghost use Rattle.lent.specs.Numbers.{bytes};
ghost use Rattle.lent.specs.Parts.{patch};
ghost use Rattle.held.specs.Room.{level_cells};
ghost use Rattle.forest.specs.Places.{unit_at, len_at, level_in};
ghost use Rattle.sweep.specs.Moved.{StaysAt, row_moved};

// How many records stay of the one that stands in unit `at`, if that is before unit `end`.
pub fn record_stays(s: &[u8], base: usize, at: usize, end: usize, clock: u64) -> usize
    requires { (at ≤ end) × (unit_at base end ≤ length s.now) }
    ensures { StaysAt clock base s.now at end result }
{
    if end <= at {
        return 0;
    }
    let Some(_) = lookup::life_at(s, base, at, clock) else {
        return 0;
    };
    1
}

// The cells of the level of the row that begins at unit i.
pub fn cells_at(s: &[u8], base: usize, i: usize, n: usize) -> usize
    requires { (i < n) × (unit_at base n ≤ length s.now) × (len_at base s.now i < 65536) }
    ensures { (result ≡ level_cells (level_in base s.now i n)) × (result ≤ 4096) }
{
    let level = forest::level_at(s, base, i, n);
    region::cells_of(level)
}

// Moves the units of a row from unit i down to unit `to`, and marks them there.
pub fn move_row(s: &mut [u8], base: usize, i: usize, to: usize, row: usize, depth: usize)
    requires { (to ≤ i) × (0 < row) × (unit_at base (i + row) ≤ length s.old) × (64 + (i + row) ≤ base) × (depth < 256) }
    ensures { s.new ≡ row_moved base i to row depth s.old }
{
    let at = base + to * 16;
    lent::close_gap(s, at, at + row * 16, (i - to) * 16);
    lent::fill(s, 64 + to, 1, depth as u8);
    lent::fill(s, 64 + to + 1, row - 1, 255);
}

// Writes how many the node of the head at a place holds, and the units below it.
pub fn put_head(s: &mut [u8], at: usize, own: usize, below: usize)
    requires { at + 8 ≤ length s.old }
    ensures { s.new ≡ patch (at + 2) (bytes 2 own ++ bytes 2 below) s.old }
{
    lent::put16(s, at + 2, own as u64);
    lent::put16(s, at + 4, below as u64);
}
