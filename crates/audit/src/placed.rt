// The node of a row where it stands: what it has, and what follows it.
ghost use Rattle.std.specs.Prelude.{◌≡◌, ◌+◌, ◌/◌, ◌≤◌, ◌<◌, length};
ghost use Rattle.forest.specs.Places.{unit_at, level_in};
ghost use Rattle.audit.specs.Heads.{HeadAt};
ghost use Rattle.audit.specs.Tests.{may_hold, shape_fine, follows, placed_fine};

use crate::Head;

// A blank first level holds nothing: it would be the empty text.
fn may_hold(level: &[u8], d: usize) -> bool
    ensures { result ≡ may_hold d level.now }
{
    if d == 1 {
        return level.len() != 0;
    }
    true
}

// What a node has: something held or a child, and below '#' nothing.
fn shape_is_sound(level: &[u8], d: usize, own: usize, below: usize) -> bool
    ensures { result ≡ shape_fine d level.now own below }
{
    if below == 0 {
        if own == 0 {
            return false;
        }
        return may_hold(level, d);
    }
    if level::is_only(level, b'#') {
        return false;
    }
    if own == 0 {
        return true;
    }
    may_hold(level, d)
}

// The next node of the row, which begins at unit `past`, has a later level.
fn is_in_order(s: &[u8], base: usize, level: &[u8], past: usize, n: usize) -> bool
    requires { unit_at base n ≤ length s.now }
    ensures { result ≡ follows base s.now level.now past n }
{
    if n <= past {
        return true;
    }
    let next = forest::level_at(s, base, past, n);
    forest::compare(level, next).is_lt()
}

// The node of the row may stand where it stands: what it has, and what follows it.
pub fn row_is_placed(
    s: &[u8],
    base: usize,
    level: &[u8],
    d: usize,
    i: usize,
    n: usize,
    head: Head,
) -> bool
    requires { HeadAt base s.now i head × (level.now ≡ level_in base s.now i n) × (i < n) × (unit_at base n ≤ length s.now) }
    ensures { result ≡ placed_fine base s.now d i n }
{
    if !shape_is_sound(level, d, head.own, head.below) {
        return false;
    }
    let past = i + (head.len + 23) / 16 + head.own + head.below;
    is_in_order(s, base, level, past, n)
}
