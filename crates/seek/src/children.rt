// A child of a row, by its level.
ghost use Rattle.std.specs.Prelude.{◌≡◌, ◌+◌, ◌≤◌, ◌<◌, length};
ghost use Rattle.forest.specs.Places.{unit_at};
ghost use Rattle.forest.specs.Stands.{raw_in, RawStands};
ghost use Rattle.seek.specs.Child.{child_of, Inside};
ghost use Rattle.seek.specs.Probe.{Probed};

use crate::{Child, Probe};
use forest::Row;
use std::cmp::Ordering;

// How many siblings a search passes before it halves the row, and how many are left of them behind the first.
const PASSED: usize = 8;

const BEHIND: usize = 7;

// From the unit mid back to the sibling that holds it, in so many steps; where it is farther, the row's first, and some more are
// passed.
fn step_back(s: &[u8], a: usize, mid: usize, b: usize, d: usize, steps: usize) -> Probe
    requires { (a ≤ mid) × (mid < b) × (64 + b ≤ length s.now) }
    ensures { Probed s.now d a b result }
{
    let mut m = mid;
    let mut left = steps;
    while a < m {
        if s[64 + m] as usize <= d {
            return Probe {
                node: m,
                mid,
                few: 0,
            };
        }
        if left == 0 {
            return Probe {
                node: a,
                mid: a,
                few: BEHIND,
            };
        }
        left -= 1;
        m -= 1;
    }
    Probe {
        node: m,
        mid,
        few: 0,
    }
}

// Where to look in the units from a up to b: at the first sibling while few are passed, then in the middle.
fn probe(s: &[u8], a: usize, b: usize, d: usize, few: usize) -> Probe
    requires { (a < b) × (64 + b ≤ length s.now) }
    ensures { Probed s.now d a b result }
{
    if 0 < few {
        return Probe {
            node: a,
            mid: a,
            few: few - 1,
        };
    }
    step_back(s, a, a + (b - a) / 2, b, d, 64)
}

// How many siblings are still passed after the one at unit m: none where it is the first of a row that seems to have many more of
// its size, in the middle too. A level of one byte may be a wildcard, which says nothing of the others.
fn still_passed(s: &[u8], few: usize, r: Row, m: usize, b: usize, d: usize) -> usize
    requires { (m ≤ r.past) × (r.past ≤ b) × (64 + b ≤ length s.now) }
{
    if few != BEHIND {
        return few;
    }
    if r.len < 2 {
        return few;
    }
    let from = r.past;
    let size = from - m;
    let left = b - from;
    if left / 16 <= size {
        return few;
    }
    let p = step_back(s, from, from + left / 2, b, d, size);
    p.few
}

// The child with a level, in the row at depth d whose units go from lo up to hi; or the unit where it would go.
pub fn find_child(
    s: &[u8],
    base: usize,
    lo: usize,
    hi: usize,
    d: usize,
    level: &[u8],
) -> Result<Child, usize>
    requires { (unit_at base hi ≤ length s.now) × (64 + hi ≤ base) × (d < 255) }
    ensures { (RawStands base s.now d lo hi → result ≡ child_of level.now lo (raw_in base s.now lo hi)) × Inside lo hi result }
{
    // The units are halved, so that a and b come nearer by as much as the row allows: no step of one.
    let mut a = lo;
    let mut b = hi;
    let mut few: usize = PASSED;
    while a < b {
        let p = probe(s, a, b, d, few);
        let m = p.node;
        let mid = p.mid;
        few = p.few;
        match forest::compare(forest::level_at(s, base, m, b), level) {
            Ordering::Less => {
                let r = forest::row_at(s, base, m, b);
                a = r.past.max(mid + 1);
                few = still_passed(s, few, r, m, b, d);
            }
            Ordering::Equal => {
                let row = forest::row_at(s, base, m, b);
                return Ok(Child {
                    node: m,
                    end: row.end,
                    past: row.past,
                });
            }
            Ordering::Greater => {
                b = m;
            }
        }
    }
    Err(a)
}
