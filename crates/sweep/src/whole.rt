// A whole region: its rows, then the header's counts.
ghost use Rattle.std.specs.Prelude.{◌≡◌, ◌+◌, ◌-◌, ◌≤◌, ◌<◌, length};
ghost use Rattle.forest.specs.Places.{unit_at};
ghost use Rattle.sweep.specs.Removed.{counts_put, Removed};

use crate::{Kept, rows};

// Writes what is in use into the header.
fn put_counts(s: &mut [u8], kept: Kept)
    requires { 18 ≤ length s.old }
    ensures { s.new ≡ counts_put kept s.old }
{
    lent::put16(s, 10, kept.nodes as u64);
    lent::put16(s, 12, kept.pairs as u64);
    lent::put16(s, 14, kept.cells as u64);
    lent::put16(s, 16, kept.to as u64);
}

// How many went, where there were `before`.
fn gone(before: u64, after: usize) -> usize
    requires { before < 65536 }
    ensures { result ≡ before - after }
{
    let count = before as usize;
    if count < after { 0 } else { count - after }
}

// Removes every record that has expired from the n units of a region, and every node that is left with no record and no
// child. The answer is how many records went.
pub fn remove_expired(s: &mut [u8], base: usize, n: usize, clock: u64) -> usize
    requires { (unit_at base n ≤ length s.old) × (64 + n ≤ base) × (n < 4294967296) }
    ensures { Removed clock base n s.old s.new result }
{
    let before = lent::get16(s, 12);
    let kept = rows::sweep_rows(s, base, 0, n, 0, 1, clock);
    put_counts(s, kept);
    gone(before, kept.pairs)
}
