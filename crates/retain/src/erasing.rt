// Erasing the record of a name that was accepted.
ghost use Rattle.std.specs.Prelude.{◌≡◌, ◌≤◌, ◌<◌, length, Ok};
ghost use Rattle.level.specs.Levels.{split};
ghost use Rattle.topic.specs.Rules.{name_rules};
ghost use Rattle.topic.specs.Answers.{checked};
ghost use Rattle.region.specs.Shapes.{UnitsOf};
ghost use Rattle.seek.specs.PathFound.{PathFound};
ghost use Rattle.retain.specs.Erasing.{Erases};

use crate::slots;
use refusal::Refusal;
use region::Shape;
use seek::Path;

const ERASED: u64 = 3;

const NOT_HELD: u64 = 4;

// Of a name whose nodes are all there.
fn erase_record(
    s: &mut [u8],
    base: usize,
    n: usize,
    room: usize,
    p: Path,
    name: &[u8],
) -> Result<u64, Refusal>
    requires { UnitsOf s.old base n room × (checked (name_rules name.now) ≡ Ok tt) × (length (split name.now) ≤ 128) × (length name.now ≤ 65535) × PathFound base s.old n name.now p × (length name.now < p.from) }
    ensures { Erases name.now s.old s.new result }
{
    let nodes = p.nodes;
    let depth = p.depth;
    let last = depth - 1;
    let node = nodes[last];
    let Some(slot) = slots::slot_of(s, base, n, node) else {
        return Err(Refusal::NotAStore);
    };
    let Ok(at) = slot else {
        return Ok(NOT_HELD);
    };
    if edit::is_alone(s, base, n, node) {
        return edit::take_path(s, base, n, nodes, depth, name, ERASED);
    }
    edit::take_unit(s, base, n, nodes, last, node, at, ERASED)
}

// Of a name of at most 128 levels.
fn erase_in(s: &mut [u8], base: usize, n: usize, room: usize, name: &[u8]) -> Result<u64, Refusal>
    requires { UnitsOf s.old base n room × (checked (name_rules name.now) ≡ Ok tt) × (length (split name.now) ≤ 128) × (length name.now ≤ 65535) }
    ensures { Erases name.now s.old s.new result }
{
    let p = seek::find_path(s, base, n, name);
    if name.len() < p.from {
        return erase_record(s, base, n, room, p, name);
    }
    Ok(NOT_HELD)
}

// In a region that is a store. A name of over 128 levels is not held.
pub fn erase_accepted(s: &mut [u8], name: &[u8]) -> Result<u64, Refusal>
    requires { checked (name_rules name.now) ≡ Ok tt }
    ensures { Erases name.now s.old s.new result }
{
    if 128 < level::level_count(name) {
        return Ok(NOT_HELD);
    }
    let Some(Shape { base, used, room }) = region::shape_of(s) else {
        return Err(Refusal::NotAStore);
    };
    erase_in(s, base, used, room, name)
}
