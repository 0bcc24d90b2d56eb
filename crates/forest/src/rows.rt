// Rows of units, read where they stand.
ghost use Rattle.std.specs.Prelude.{◌≡◌, ◌<◌, ◌≤◌, min, length};
ghost use Rattle.forest.specs.Places.{unit_at, level_in, RowAt};

use crate::Row;

// The row that begins at unit i, with nothing past unit n. Its numbers are read from a part of known length: then the compiler
// tests no place a second time.
pub fn row_at(s: &[u8], base: usize, i: usize, n: usize) -> Row
    requires { (i < n) × (unit_at base n ≤ length s.now) }
    ensures { RowAt base s.now i n result }
{
    let at = base + i * 16;
    let head = &s[at..at + 8];
    let len = lent::get16(head, 0) as usize;
    let own = lent::get16(head, 2) as usize;
    let below = lent::get16(head, 4) as usize;
    let end = (i + (len + 23) / 16 + own).min(n);
    let past = (end + below).min(n);
    Row {
        len,
        own,
        end,
        past,
    }
}

// The level of the row that begins at unit i, as a part of the region.
pub fn level_at(s: &[u8], base: usize, i: usize, n: usize) -> &[u8]
    requires { (i < n) × (unit_at base n ≤ length s.now) }
    ensures { result.now ≡ level_in base s.now i n }
{
    let at = base + i * 16;
    let len = (lent::get16(s, at) as usize).min((n - i) * 16 - 8);
    let from = at + 8;
    let to = from + len;
    &s[from..to]
}
