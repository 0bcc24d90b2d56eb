// Inserting a filter that was accepted, with a value.
ghost use Rattle.std.specs.Prelude.{◌≡◌, ◌≤◌, ◌<◌, length, Ok};
ghost use Rattle.level.specs.Levels.{split};
ghost use Rattle.topic.specs.Rules.{filter_rules};
ghost use Rattle.topic.specs.Answers.{checked};
ghost use Rattle.region.specs.Shapes.{UnitsOf};
ghost use Rattle.seek.specs.PathFound.{PathFound};
ghost use Rattle.held.specs.Subscriptions.{insert};
ghost use Rattle.edit.specs.Calls.{Does};
ghost use Rattle.trie.specs.Calls.{subscription_store};

use crate::{slots, values};
use refusal::Refusal;
use region::Shape;
use seek::Path;

// A value for a filter whose nodes are all there.
fn insert_value(
    s: &mut [u8],
    base: usize,
    n: usize,
    room: usize,
    p: Path,
    filter: &[u8],
    value: u32,
) -> Result<u64, Refusal>
    requires { UnitsOf s.old base n room × (checked (filter_rules filter.now) ≡ Ok tt) × (length (split filter.now) ≤ 128) × PathFound base s.old n filter.now p × (length filter.now < p.from) }
    ensures { Does subscription_store (insert filter.now value) s.old s.new result }
{
    let nodes = p.nodes;
    let last = p.depth - 1;
    let node = nodes[last];
    let Some(slot) = slots::slot_of(s, base, n, node, value) else {
        return Err(Refusal::NotAStore);
    };
    match slot {
        Ok(_) => Ok(0),
        Err(at) => {
            let unit = values::unit_of(value);
            edit::add_unit(s, base, n, room, nodes, last, node, at, &unit)
        }
    }
}

// A value for a filter of at most 128 levels.
fn insert_in(
    s: &mut [u8],
    base: usize,
    n: usize,
    room: usize,
    filter: &[u8],
    value: u32,
) -> Result<u64, Refusal>
    requires { UnitsOf s.old base n room × (checked (filter_rules filter.now) ≡ Ok tt) × (length (split filter.now) ≤ 128) }
    ensures { Does subscription_store (insert filter.now value) s.old s.new result }
{
    let p = seek::find_path(s, base, n, filter);
    if filter.len() < p.from {
        return insert_value(s, base, n, room, p, filter, value);
    }
    let unit = values::unit_of(value);
    edit::add_chain(s, base, n, room, p, filter, &unit)
}

// Into a region that is a store.
pub fn insert_accepted(s: &mut [u8], filter: &[u8], value: u32) -> Result<u64, Refusal>
    requires { checked (filter_rules filter.now) ≡ Ok tt }
    ensures { Does subscription_store (insert filter.now value) s.old s.new result }
{
    if 128 < level::level_count(filter) {
        return Err(Refusal::TooDeep);
    }
    let Some(Shape { base, used, room }) = region::shape_of(s) else {
        return Err(Refusal::NotAStore);
    };
    insert_in(s, base, used, room, filter, value)
}
