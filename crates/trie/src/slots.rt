// The slot of a value at a node.
ghost use Rattle.std.specs.Prelude.{◌≡◌, ◌≤◌, ◌<◌, length, IfSome, MatchResult};
ghost use Rattle.forest.specs.Places.{unit_at};
ghost use Rattle.trie.specs.Slots.{slot_in};

use crate::values;

// `Ok` of the unit that holds the value, else `Err` of the unit before which it would go; `None` where the node's row
// is not a store's.
pub fn slot_of(
    s: &[u8],
    base: usize,
    n: usize,
    node: usize,
    value: u32,
) -> Option<Result<usize, usize>>
    requires { (node < n) × (unit_at base n ≤ length s.now) }
    ensures { (result ≡ slot_in base s.now n node value) × IfSome result (λ slot. MatchResult slot (λ at. at ≤ n) (λ at. at ≤ n)) }
{
    let row = forest::row_at(s, base, node, n);
    let first = node + (row.len + 23) / 16;
    let end = row.end;
    if end < first {
        return None;
    }
    match values::find_value(s, base, first, end - first, value) {
        Ok(at) => Some(Ok(first + at)),
        Err(at) => Some(Err(first + at)),
    }
}
