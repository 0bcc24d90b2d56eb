// The slot of a node's record.
ghost use Rattle.std.specs.Prelude.{◌≡◌, ◌≤◌, ◌<◌, length, IfSome, MatchResult};
ghost use Rattle.forest.specs.Places.{unit_at};
ghost use Rattle.retain.specs.Slots.{slot_in};

// `Ok` of the unit that holds the record, else `Err` of the unit before which it would go; `None` where the node's row
// is not a store's.
pub fn slot_of(s: &[u8], base: usize, n: usize, node: usize) -> Option<Result<usize, usize>>
    requires { (node < n) × (unit_at base n ≤ length s.now) }
    ensures { (result ≡ slot_in base s.now n node) × IfSome result (λ slot. MatchResult slot (λ at. at ≤ n) (λ at. at ≤ n)) }
{
    let row = forest::row_at(s, base, node, n);
    let first = node + (row.len + 23) / 16;
    let end = row.end;
    if end < first {
        return None;
    }
    if first < end {
        return Some(Ok(first));
    }
    Some(Err(first))
}
