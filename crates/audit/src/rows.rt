// The rows of units, one after another: every row is tested, and what it has is taken from what the header promises.
ghost use Rattle.std.specs.Prelude.{◌≡◌, ◌+◌, ◌/◌, ◌≤◌, length};
ghost use Rattle.held.specs.Room.{level_cells};
ghost use Rattle.forest.specs.Places.{unit_at};
ghost use Rattle.audit.specs.Heads.{HeadAt};
ghost use Rattle.audit.specs.Tests.{row_fine};
ghost use Rattle.audit.specs.Tally.{taken, tally};

use crate::placed::row_is_placed;
use crate::written::{head_at, level_of, row_is_written, text_is_sound};
use crate::{Head, Left};
use region::Kind;

// The deepest level that a store has.
const DEEPEST: usize = 128;

// The row at unit i by itself: how it is written, its level, and where it stands.
fn row_is_sound(s: &[u8], base: usize, kind: Kind, d: usize, i: usize, n: usize, head: Head) -> bool
    requires { HeadAt base s.now i head × (i + (head.len + 23) / 16 + head.own + head.below ≤ n) × (unit_at base n ≤ length s.now) × (64 + n ≤ base) }
    ensures { result ≡ row_fine kind base s.now d i n }
{
    if !row_is_written(s, base, kind, d, i, n, head) {
        return false;
    }
    if !text_is_sound(s, base, kind, i, n, head) {
        return false;
    }
    let level = level_of(s, base, i, n, head);
    row_is_placed(s, base, level, d, i, n, head)
}

// Takes one node, what it holds and the cells of its level from what is left.
fn take_node(left: Left, level: &[u8], own: usize) -> Option<Left>
    ensures { result ≡ taken left level.now own }
{
    if left.nodes < 1 {
        return None;
    }
    if left.pairs < own {
        return None;
    }
    let cells = region::cells_of(level);
    if left.cells < cells {
        return None;
    }
    Some(Left {
        nodes: left.nodes - 1,
        pairs: left.pairs - own,
        cells: left.cells - cells,
    })
}

// The rows of the units from `lo` up to n, at depth d, where a text has `room` bytes left, the '/' after each level counted.
pub fn audit_rows(
    s: &[u8],
    base: usize,
    kind: Kind,
    d: usize,
    room: usize,
    lo: usize,
    n: usize,
    promised: Left,
) -> Option<Left>
    requires { (unit_at base n ≤ length s.now) × (64 + n ≤ base) }
    ensures { result ≡ tally kind base s.now d room lo n promised }
{
    // Nothing is counted here: each row says where its next sibling begins.
    let mut i = lo;
    let mut left = promised;
    while i < n {
        let head = head_at(s, base, i, n);
        let end = i + (head.len + 23) / 16 + head.own;
        let past = end + head.below;
        if n < past {
            return None;
        }
        if DEEPEST < d {
            return None;
        }
        if room <= head.len {
            return None;
        }
        if !row_is_sound(s, base, kind, d, i, n, head) {
            return None;
        }
        let level = level_of(s, base, i, n, head);
        let rest = take_node(left, level, head.own)?;
        if head.below == 0 {
            left = rest;
            i = past;
            continue;
        }
        left = audit_rows(s, base, kind, d + 1, room - (head.len + 1), end, past, rest)?;
        i = past;
    }
    Some(left)
}
