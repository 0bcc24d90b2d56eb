// Whether a name has a match.
ghost use Rattle.std.specs.Prelude.{◌≡◌, ◌+◌, ◌≤◌, length};
ghost use Rattle.level.specs.Levels.{split};
ghost use Rattle.level.specs.Places.{levels_at};
ghost use Rattle.held.specs.Stream.{list_hit};
ghost use Rattle.forest.specs.Places.{unit_at};
ghost use Rattle.walk.specs.Nodes.{NodeIn, Listed, values_in};
ghost use Rattle.walk.specs.Steps.{Steps};
ghost use Rattle.walk.specs.Hits.{Hits, HashHits};

use crate::{Node, nodes};

// The node has a value.
fn has_values(node: Option<Node>) -> bool
    ensures { HashHits node result }
{
    match node {
        Some(node) => node.values < node.end,
        None => false,
    }
}

// From a node at a depth, with the levels of the name from a place on.
fn hits(s: &[u8], base: usize, node: Option<Node>, depth: usize, name: &[u8], from: usize) -> bool
    requires { NodeIn base s.now node × Steps name.now depth from }
    ensures { Hits base s.now depth node (levels_at name.now from) result }
{
    let Some(Node { values, end, past }) = node else {
        return false;
    };
    let all = nodes::hash_child(s, base, end, past, depth);
    if name.len() < from {
        if values < end {
            return true;
        }
        return has_values(all);
    }
    if has_values(all) {
        return true;
    }
    let stop = nodes::level_stop(name, from);
    let below = depth + 1;
    let next = stop + 1;
    let any = nodes::plus_child(s, base, end, past, depth);
    if hits(s, base, any, below, name, next) {
        return true;
    }
    let own = nodes::child(s, base, end, past, depth, &name[from..stop]);
    hits(s, base, own, below, name, next)
}

// Some filter that a region holds in its units from 0 up to n matches the name.
pub fn has_match(s: &[u8], base: usize, n: usize, name: &[u8]) -> bool
    requires { (unit_at base n ≤ length s.now) × (64 + n ≤ base) }
    ensures { Listed base s.now n → result ≡ list_hit (split name.now) (values_in base s.now n) }
{
    let t = nodes::begin(s, base, n, name);
    let node = t.node;
    hits(s, base, node, t.depth, name, t.from)
}
