// A value among those that a node holds.
ghost use Rattle.std.specs.Prelude.{◌≡◌, ◌+◌, ◌%◌, ◌≤◌, length, MatchResult};
ghost use Rattle.forest.specs.Places.{unit_at};
ghost use Rattle.region.specs.Units.{value_bytes};
ghost use Rattle.trie.specs.Values.{values_from, spot_from};

// Looks for a value among the `own` that stand from unit i on: `Ok` where it is, `Err` where it would go. Those are as many as a
// gap for one more has to move, so that going through them costs no more than that.
pub fn find_value(s: &[u8], base: usize, i: usize, own: usize, value: u32) -> Result<usize, usize>
    requires { unit_at base (i + own) ≤ length s.now }
    ensures { (result ≡ spot_from 0 value (values_from base s.now i own)) × MatchResult result (λ at. at ≤ own) (λ at. at ≤ own) }
{
    let wanted = value as u64;
    for k in 0..own {
        let v = lent::get32(s, base + (i + k) * 16);
        if wanted < v {
            return Err(k);
        }
        if wanted <= v {
            return Ok(k);
        }
    }
    Err(own)
}

fn byte(n: u32) -> u8
    ensures { result ≡ n % 256 }
{
    (n % 256) as u8
}

// The unit of a value.
pub fn unit_of(value: u32) -> [u8; 16]
    ensures { result ≡ value_bytes value }
{
    let high = value / 256;
    let higher = high / 256;
    let highest = higher / 256;
    [
        byte(highest),
        byte(higher),
        byte(high),
        byte(value),
        0,
        0,
        0,
        0,
        0,
        0,
        0,
        0,
        0,
        0,
        0,
        0,
    ]
}
