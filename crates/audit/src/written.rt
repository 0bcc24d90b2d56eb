// A row of units as it is written: its head, its marks, its level and what it holds.
ghost use Rattle.std.specs.Prelude.{◌≡◌, ◌+◌, ◌*◌, ◌/◌, ◌≤◌, ◌<◌, length};
ghost use Rattle.forest.specs.Places.{unit_at, level_in};
ghost use Rattle.audit.specs.Heads.{HeadAt};
ghost use Rattle.audit.specs.Tests.{marks_fine, written_fine, text_fine};

use crate::Head;
use region::Kind;

// Where the marks begin.
const MARKS: usize = 64;

// The numbers of the head at unit i.
pub fn head_at(s: &[u8], base: usize, i: usize, n: usize) -> Head
    requires { (i < n) × (unit_at base n ≤ length s.now) }
    ensures { HeadAt base s.now i result }
{
    let at = base + i * 16;
    let unit = &s[at..at + 8];
    let len = lent::get16(unit, 0) as usize;
    let own = lent::get16(unit, 2) as usize;
    let below = lent::get16(unit, 4) as usize;
    let spare = lent::get16(unit, 6) as usize;
    Head {
        len,
        own,
        below,
        spare,
    }
}

// The level of the row, of which nothing is cut off.
pub fn level_of(s: &[u8], base: usize, i: usize, n: usize, head: Head) -> &[u8]
    requires { HeadAt base s.now i head × (i + (head.len + 23) / 16 + head.own + head.below ≤ n) × (unit_at base n ≤ length s.now) }
    ensures { result.now ≡ level_in base s.now i n }
{
    let from = base + i * 16 + 8;
    let to = from + head.len;
    &s[from..to]
}

// The mark of a row's first unit is its depth, the marks of its others are 255.
fn marks_are_sound(s: &[u8], d: usize, i: usize, end: usize) -> bool
    requires { (i < end) × (64 + end ≤ length s.now) }
    ensures { result ≡ marks_fine s.now d i end }
{
    let at = MARKS + i;
    if usize::from(s[at]) != d {
        return false;
    }
    content::all_are(s, 255, at + 1, MARKS + end)
}

// The row at unit i is written as it is read: its head, its marks, and what it holds.
pub fn row_is_written(
    s: &[u8],
    base: usize,
    kind: Kind,
    d: usize,
    i: usize,
    n: usize,
    head: Head,
) -> bool
    requires { HeadAt base s.now i head × (i + (head.len + 23) / 16 + head.own ≤ n) × (unit_at base n ≤ length s.now) × (64 + n ≤ base) }
    ensures { result ≡ written_fine kind base s.now d i }
{
    if head.spare != 0 {
        return false;
    }
    let held = i + (head.len + 23) / 16;
    if !marks_are_sound(s, d, i, held + head.own) {
        return false;
    }
    content::own_is_sound(s, kind, base + held * 16, head.own)
}

// The level of the row, and what fills its last unit. A short plain level is seen at once with its fill.
pub fn text_is_sound(s: &[u8], base: usize, kind: Kind, i: usize, n: usize, head: Head) -> bool
    requires { HeadAt base s.now i head × (i + (head.len + 23) / 16 + head.own + head.below ≤ n) × (unit_at base n ≤ length s.now) }
    ensures { result ≡ text_fine kind base s.now i n }
{
    let from = base + i * 16 + 8;
    if head.len <= 8 {
        if content::is_short_plain(&s[from..from + 8], head.len) {
            return true;
        }
    }
    let to = base + (i + (head.len + 23) / 16) * 16;
    if !content::all_are(s, 0, from + head.len, to) {
        return false;
    }
    content::level_is_sound(level_of(s, base, i, n, head), kind)
}
