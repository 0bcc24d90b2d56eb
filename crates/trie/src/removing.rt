// Removing a value of a filter that was accepted.
ghost use Rattle.std.specs.Prelude.{◌≡◌, ◌≤◌, ◌<◌, length, Ok};
ghost use Rattle.level.specs.Levels.{split};
ghost use Rattle.topic.specs.Rules.{filter_rules};
ghost use Rattle.topic.specs.Answers.{checked};
ghost use Rattle.region.specs.Shapes.{UnitsOf};
ghost use Rattle.seek.specs.PathFound.{PathFound};
ghost use Rattle.held.specs.Subscriptions.{remove};
ghost use Rattle.edit.specs.Calls.{Does};
ghost use Rattle.trie.specs.Calls.{subscription_store};

use crate::slots;
use refusal::Refusal;
use region::Shape;
use seek::Path;

// A value of a filter whose nodes are all there.
fn remove_value(
    s: &mut [u8],
    base: usize,
    n: usize,
    room: usize,
    p: Path,
    filter: &[u8],
    value: u32,
) -> Result<u64, Refusal>
    requires { UnitsOf s.old base n room × (checked (filter_rules filter.now) ≡ Ok tt) × (length (split filter.now) ≤ 128) × (length filter.now ≤ 65535) × PathFound base s.old n filter.now p × (length filter.now < p.from) }
    ensures { Does subscription_store (remove filter.now value) s.old s.new result }
{
    let nodes = p.nodes;
    let depth = p.depth;
    let last = depth - 1;
    let node = nodes[last];
    let Some(slot) = slots::slot_of(s, base, n, node, value) else {
        return Err(Refusal::NotAStore);
    };
    let Ok(at) = slot else {
        return Ok(0);
    };
    if edit::is_alone(s, base, n, node) {
        return edit::take_path(s, base, n, nodes, depth, filter, 1);
    }
    edit::take_unit(s, base, n, nodes, last, node, at, 1)
}

// A value of a filter of at most 128 levels.
fn remove_in(
    s: &mut [u8],
    base: usize,
    n: usize,
    room: usize,
    filter: &[u8],
    value: u32,
) -> Result<u64, Refusal>
    requires { UnitsOf s.old base n room × (checked (filter_rules filter.now) ≡ Ok tt) × (length (split filter.now) ≤ 128) × (length filter.now ≤ 65535) }
    ensures { Does subscription_store (remove filter.now value) s.old s.new result }
{
    let p = seek::find_path(s, base, n, filter);
    if filter.len() < p.from {
        return remove_value(s, base, n, room, p, filter, value);
    }
    Ok(0)
}

// From a region that is a store. A filter of over 128 levels is not held.
pub fn remove_accepted(s: &mut [u8], filter: &[u8], value: u32) -> Result<u64, Refusal>
    requires { checked (filter_rules filter.now) ≡ Ok tt }
    ensures { Does subscription_store (remove filter.now value) s.old s.new result }
{
    if 128 < level::level_count(filter) {
        return Ok(0);
    }
    let Some(Shape { base, used, room }) = region::shape_of(s) else {
        return Err(Refusal::NotAStore);
    };
    remove_in(s, base, used, room, filter, value)
}
