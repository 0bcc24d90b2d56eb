// The time that a record has left.
ghost use Rattle.std.specs.Prelude.{◌≡◌, ◌+◌, ◌≤◌, length};
ghost use Rattle.lent.specs.Parts.{part};
ghost use Rattle.region.specs.Units.{stored_of};
ghost use Rattle.forest.specs.Places.{unit_at};
ghost use Rattle.lookup.specs.Lives.{life_of};

// The ms that the record in unit `at` has left, 0 where it has no moment; none where it has expired.
pub fn life_at(s: &[u8], base: usize, at: usize, clock: u64) -> Option<u64>
    requires { unit_at base at + 16 ≤ length s.now }
    ensures { result ≡ life_of clock (stored_of (part (unit_at base at) 16 s.now)) }
{
    let place = base + at * 16;
    if s[place + 4] != 1 {
        return Some(0);
    }
    let moment = lent::get64(s, place + 8);
    if moment <= clock {
        return None;
    }
    Some(moment - clock)
}
