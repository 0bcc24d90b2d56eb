// The records of a lookup, written where there is room.
ghost use Rattle.std.specs.Prelude.{◌+◌, ◌-◌, ◌≤◌, ◌<◌, length};
ghost use Rattle.level.specs.Places.{levels_at};
ghost use Rattle.forest.specs.Places.{unit_at};
ghost use Rattle.pages.specs.Paths.{path_at, Trail};
ghost use Rattle.pages.specs.Written.{query_of, RecordWritten, LiveWritten, OwnWritten};

use crate::{Ask, Spot, texts};

// The record in a unit, which has `ms` left, under the name of a path of `text` bytes. Its handle overwrites the last '/'.
fn write_record(
    out: &mut [u8],
    at: usize,
    path: &[usize; 128],
    s: &[u8],
    ask: Ask,
    unit: usize,
    left: usize,
    text: usize,
    ms: u64,
) -> usize
    requires { Trail ask.base s.now ask.n path.now left (text + 1) × (unit_at ask.base unit + 16 ≤ length s.now) × (at ≤ length out.old) }
    ensures { RecordWritten ask.base s.now unit (path_at ask.base s.now ask.n path.now (128 - left)) ms out.old out.new at result }
{
    let size = 16 + text;
    if out.len() - at < size {
        return at;
    }
    let after = at + 4 + text;
    let handle = lent::get32(s, ask.base + unit * 16);
    texts::write_name(out, at, path, s, ask, 128 - left, text);
    lent::put32(out, after, handle);
    lent::put64(out, after + 4, ms);
    at + size
}

// The record in a unit, unless it has expired or is not in the page.
fn write_live(
    spot: Spot,
    out: &mut [u8],
    path: &[usize; 128],
    s: &[u8],
    ask: Ask,
    unit: usize,
    left: usize,
    text: usize,
) -> Spot
    requires { Trail ask.base s.now ask.n path.now left (text + 1) × (unit_at ask.base unit + 16 ≤ length s.now) × (spot.at ≤ length out.old) × (spot.number < 4294967296) }
    ensures { LiveWritten (query_of ask) ask.base s.now unit (path_at ask.base s.now ask.n path.now (128 - left)) out.old out.new spot result }
{
    let Some(ms) = lookup::life_at(s, ask.base, unit, ask.clock) else {
        return spot;
    };
    let number = spot.number + 1;
    if lookup::in_page(spot.number as u64, ask.offset, ask.limit) {
        return Spot {
            at: write_record(out, spot.at, path, s, ask, unit, left, text, ms),
            number,
        };
    }
    Spot {
        at: spot.at,
        number,
    }
}

// What a node holds, in the units from `unit` up to `end`, unless the filter has more levels.
pub fn write_own(
    spot: Spot,
    out: &mut [u8],
    path: &[usize; 128],
    s: &[u8],
    ask: Ask,
    unit: usize,
    end: usize,
    left: usize,
    filter: &[u8],
    next: usize,
    text: usize,
) -> Spot
    requires { Trail ask.base s.now ask.n path.now left (text + 1) × (unit_at ask.base end ≤ length s.now) × (spot.at ≤ length out.old) × (spot.number < 4294967296) }
    ensures { OwnWritten (query_of ask) ask.base s.now unit end (path_at ask.base s.now ask.n path.now (128 - left)) (levels_at filter.now next) out.old out.new spot result }
{
    if end <= unit {
        return spot;
    }
    if lookup::ends_at(filter, next) {
        return write_live(spot, out, path, s, ask, unit, left, text);
    }
    spot
}
