// The children of a node that a walk takes.
ghost use Rattle.std.specs.Prelude.{◌≡◌, [], ◌∷◌, ◌+◌, ◌≤◌, length};
ghost use Rattle.forest.specs.Places.{unit_at};
ghost use Rattle.walk.specs.Nodes.{Below, Kid};
ghost use Rattle.walk.specs.Steps.{NextLevel, StepTo};
ghost use Rattle.walk.specs.Starts.{Started};

use crate::{Node, Start, Step};

// The child with a level, of a node at a depth whose children stand in the units from lo up to hi.
pub fn child(
    s: &[u8],
    base: usize,
    lo: usize,
    hi: usize,
    depth: usize,
    level: &[u8],
) -> Option<Node>
    requires { Below base s.now lo hi }
    ensures { Kid base s.now depth lo hi level.now result }
{
    if 128 <= depth {
        return None;
    }
    match seek::find_child(s, base, lo, hi, depth + 1, level) {
        Ok(found) => Some(Node {
            values: (found.node + (level.len() + 23) / 16).min(found.end),
            end: found.end,
            past: found.past,
        }),
        Err(_) => None,
    }
}

pub fn hash_child(s: &[u8], base: usize, lo: usize, hi: usize, depth: usize) -> Option<Node>
    requires { Below base s.now lo hi }
    ensures { Kid base s.now depth lo hi (35 ∷ []) result }
{
    child(s, base, lo, hi, depth, b"#")
}

pub fn plus_child(s: &[u8], base: usize, lo: usize, hi: usize, depth: usize) -> Option<Node>
    requires { Below base s.now lo hi }
    ensures { Kid base s.now depth lo hi (43 ∷ []) result }
{
    child(s, base, lo, hi, depth, b"+")
}

// Where the level of the name that begins at a place ends.
pub fn level_stop(name: &[u8], from: usize) -> usize
    requires { from ≤ length name.now }
    ensures { NextLevel name.now from result }
{
    level::level_end(name, from)
}

// The children of a node at a depth that a walk goes on to, with the level of the name that begins at a place. A listing asks for
// them at every node, so that the call itself would take time.
#[inline]
pub fn go_on(
    s: &[u8],
    base: usize,
    lo: usize,
    hi: usize,
    depth: usize,
    name: &[u8],
    from: usize,
) -> Step
    requires { Below base s.now lo hi × (from ≤ length name.now) }
    ensures { StepTo base s.now depth lo hi name.now from result }
{
    let stop = level_stop(name, from);
    Step {
        any: plus_child(s, base, lo, hi, depth),
        own: child(s, base, lo, hi, depth, &name[from..stop]),
        stop,
    }
}

// Where the walk for a name begins, in the units from 0 up to n: above the top row, or at the child with the name's first level
// where that begins with '$'.
pub fn begin(s: &[u8], base: usize, n: usize, name: &[u8]) -> Start
    requires { (unit_at base n ≤ length s.now) × (64 + n ≤ base) }
    ensures { Started base s.now n name.now result }
{
    let stop = level_stop(name, 0);
    let first = &name[0..stop];
    if level::is_metadata(first) {
        return Start {
            node: child(s, base, 0, n, 0, first),
            depth: 1,
            from: stop + 1,
        };
    }
    Start {
        node: Some(Node {
            values: 0,
            end: 0,
            past: n,
        }),
        depth: 0,
        from: 0,
    }
}
