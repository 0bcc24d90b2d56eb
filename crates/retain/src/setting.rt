// Setting the record of a name that was accepted.
ghost use Rattle.std.specs.Prelude.{◌≡◌, ◌≤◌, ◌<◌, length, Ok};
ghost use Rattle.level.specs.Levels.{split};
ghost use Rattle.topic.specs.Rules.{name_rules};
ghost use Rattle.topic.specs.Answers.{checked};
ghost use Rattle.region.specs.Shapes.{UnitsOf};
ghost use Rattle.seek.specs.PathFound.{PathFound};
ghost use Rattle.held.specs.Retained.{set};
ghost use Rattle.edit.specs.Calls.{Does};
ghost use Rattle.retain.specs.Calls.{retained_store, stored_as};

use crate::{slots, units};
use refusal::Refusal;
use region::Shape;
use seek::Path;

// Of a name whose nodes are all there. A record that is there already is written over: that takes no room.
fn set_record(
    s: &mut [u8],
    base: usize,
    n: usize,
    room: usize,
    p: Path,
    name: &[u8],
    handle: u32,
    moment: Option<u64>,
) -> Result<u64, Refusal>
    requires { UnitsOf s.old base n room × (checked (name_rules name.now) ≡ Ok tt) × (length (split name.now) ≤ 128) × PathFound base s.old n name.now p × (length name.now < p.from) }
    ensures { Does retained_store (set name.now 1 (stored_as handle moment)) s.old s.new result }
{
    let nodes = p.nodes;
    let last = p.depth - 1;
    let node = nodes[last];
    let Some(slot) = slots::slot_of(s, base, n, node) else {
        return Err(Refusal::NotAStore);
    };
    let unit = units::unit_of(handle, moment);
    match slot {
        Ok(at) => {
            lent::copy_in(s, base + at * 16, &unit);
            Ok(2)
        }
        Err(at) => edit::add_unit(s, base, n, room, nodes, last, node, at, &unit),
    }
}

// Of a name of at most 128 levels.
fn set_in(
    s: &mut [u8],
    base: usize,
    n: usize,
    room: usize,
    name: &[u8],
    handle: u32,
    moment: Option<u64>,
) -> Result<u64, Refusal>
    requires { UnitsOf s.old base n room × (checked (name_rules name.now) ≡ Ok tt) × (length (split name.now) ≤ 128) }
    ensures { Does retained_store (set name.now 1 (stored_as handle moment)) s.old s.new result }
{
    let p = seek::find_path(s, base, n, name);
    if name.len() < p.from {
        return set_record(s, base, n, room, p, name, handle, moment);
    }
    let unit = units::unit_of(handle, moment);
    edit::add_chain(s, base, n, room, p, name, &unit)
}

// In a region that is a store.
pub fn set_accepted(
    s: &mut [u8],
    name: &[u8],
    handle: u32,
    moment: Option<u64>,
) -> Result<u64, Refusal>
    requires { checked (name_rules name.now) ≡ Ok tt }
    ensures { Does retained_store (set name.now 1 (stored_as handle moment)) s.old s.new result }
{
    if 128 < level::level_count(name) {
        return Err(Refusal::TooDeep);
    }
    let Some(Shape { base, used, room }) = region::shape_of(s) else {
        return Err(Refusal::NotAStore);
    };
    set_in(s, base, used, room, name, handle, moment)
}
