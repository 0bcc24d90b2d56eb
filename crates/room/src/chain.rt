// New nodes for some levels of a text, written where a gap was opened for them: their rows, and their marks.
ghost use Rattle.std.specs.Prelude.{◌≡◌, ◌+◌, ◌-◌, ◌*◌, ◌≤◌, ◌<◌, ◌∷◌, ◌++◌, length, replicate};
ghost use Rattle.lent.specs.Parts.{patch};
ghost use Rattle.level.specs.Places.{levels_at};
ghost use Rattle.region.specs.Layout.{level_units, head_bytes, level_bytes};
ghost use Rattle.forest.specs.Places.{unit_at};
ghost use Rattle.room.specs.Changes.{SmallLoad};
ghost use Rattle.room.specs.Runs.{run_units, run_bytes, run_marks, WantedFor};

use crate::Load;

// A row without what its node holds: the head, and the level filled up to whole units.
fn put_row(s: &mut [u8], at: usize, level: &[u8], own: usize, below: usize)
    requires { (at + level_units level.now * 16 ≤ length s.old) × (length level.now ≤ 65535) }
    ensures { s.new ≡ patch at (head_bytes level.now own below ++ level_bytes level.now) s.old }
{
    let len = level.len();
    let fill = (len + 23) / 16 * 16 - 8 - len;
    lent::put16(s, at, len as u64);
    lent::put16(s, at + 2, own as u64);
    lent::put16(s, at + 4, below as u64);
    lent::put16(s, at + 6, 0);
    lent::copy_in(s, at + 8, level);
    lent::fill(s, at + 8 + len, fill, 0);
}

// The rows for the levels of a text from place `from` on, `units` in all, from unit `at` on. The last holds `unit`.
pub fn put_rows(
    s: &mut [u8],
    base: usize,
    at: usize,
    text: &[u8],
    from: usize,
    units: usize,
    unit: &[u8],
)
    requires { (unit_at base (at + units) ≤ length s.old) × (units ≡ run_units (levels_at text.now from)) × (length text.now ≤ 65535) × (length unit.now ≡ 16) }
    ensures { s.new ≡ patch (unit_at base at) (run_bytes unit.now (levels_at text.now from)) s.old }
{
    let mut i = at;
    let mut left = units;
    for level in (level::Levels { text, at: from }) {
        let row = (level.len() + 23) / 16;
        left -= row;
        // the last node holds the one unit that is left
        let own = usize::from(left == 1);
        put_row(s, base + i * 16, level, own, left - own);
        i += row;
    }
    lent::copy_in(s, base + i * 16, unit);
}

// The marks of a row of some units: its depth, then 255.
fn mark_row(s: &mut [u8], at: usize, row: usize, depth: usize)
    requires { (0 < row) × (at + row ≤ length s.old) × (depth < 256) }
    ensures { s.new ≡ patch at (depth ∷ replicate (row - 1) 255) s.old }
{
    lent::fill(s, at, 1, depth as u8);
    lent::fill(s, at + 1, row - 1, 255);
}

// The marks of those rows, the first at depth d.
pub fn put_marks(s: &mut [u8], at: usize, text: &[u8], from: usize, units: usize, d: usize)
    requires { (64 + (at + units) ≤ length s.old) × (units ≡ run_units (levels_at text.now from)) × (length text.now ≤ 65535) × (d + length (levels_at text.now from) ≤ 256) }
    ensures { s.new ≡ patch (64 + at) (run_marks d (levels_at text.now from)) s.old }
{
    let mut i = 64 + at;
    let mut depth = d;
    for level in (level::Levels { text, at: from }) {
        let row = (level.len() + 23) / 16;
        mark_row(s, i, row, depth);
        i += row;
        depth += 1;
    }
    lent::fill(s, i, 1, 255);
}

// What new nodes for the levels of a text from place `from` on would take, where the last holds one.
pub fn wanted_for(text: &[u8], from: usize) -> Load
    requires { length text.now ≤ 65535 }
    ensures { WantedFor (levels_at text.now from) result × SmallLoad result }
{
    let mut nodes: usize = 0;
    let mut cells: usize = 0;
    let mut units: usize = 1;
    for level in (level::Levels { text, at: from }) {
        nodes += 1;
        cells += region::cells_of(level);
        units += (level.len() + 23) / 16;
    }
    Load {
        nodes,
        pairs: 1,
        cells,
        units,
    }
}
