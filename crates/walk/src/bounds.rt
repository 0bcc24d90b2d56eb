// How long a listing can be at most, known before any walk.
ghost use Rattle.std.specs.Prelude.{◌≡◌, ◌≤◌, min, length};
ghost use Rattle.level.specs.Levels.{split};
ghost use Rattle.walk.specs.Bounds.{most_records, AtMost};

// How many records a listing from n units has at most: each has a unit of its own, and the name has so many levels.
fn most_records(n: usize, name: &[u8]) -> usize
    requires { n ≤ 65535 }
    ensures { result ≡ min n (most_records (length (split name.now))) }
{
    let levels = level::level_count(name);
    let mut most: usize = 2;
    for _ in 0..levels {
        if n <= most {
            return n;
        }
        most = 2 * most + 1;
    }
    n.min(most)
}

// How many bytes a listing from n units has at most: a record has 6 bytes, and a text of at most twice the name's bytes and 3; a
// value has 4 bytes, and a unit of its own. Where a record for each unit has room, the name's levels are not counted.
pub fn most_bytes(n: usize, name: &[u8], room: usize) -> usize
    requires { (n ≤ 65535) × (length name.now ≤ 65535) }
    ensures { AtMost n name.now result }
{
    let wide = 2 * name.len() + 9;
    let values = 4 * n;
    let simple = n * wide + values;
    if simple <= room {
        return simple;
    }
    let records = most_records(n, name);
    records * wide + values
}
