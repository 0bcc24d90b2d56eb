// Decimal numbers: no other byte than digits, and no 0 in front but 0 itself.
ghost use Rattle.std.specs.Prelude.{◌≤◌, All, IsSome, IsTrue, IfSome, Ok};

use std::str;
use std::str::FromStr;

// Whether the bytes are those of a number: at least one digit, no other byte, and no 0 in front but 0 itself.
fn is_number(digits: &[u8]) -> bool
    ensures { IsTrue result → All (λ b. (48 ≤ b) × (b ≤ 57)) digits.now }
{
    match digits {
        [] => false,
        [b'0', _, ..] => false,
        _ => digits.iter().all(|b| b.is_ascii_digit()),
    }
}

// The number that digits stand for; None where they stand for none, or for one that the type does not have. `parse` alone would
// take a sign too, and any zeros in front.
pub fn number_of<N: FromStr>(digits: &[u8]) -> Option<N>
where
    N::Err: Drop,
    ensures digits { IsSome result → All (λ b. (48 ≤ b) × (b ≤ 57)) digits.now }
    ensures value { IfSome result (λ n. N.from_str_gives digits.now (Ok n)) }
{
    if !is_number(digits) {
        return None;
    }
    str::from_utf8(digits).ok()?.parse().ok()
}
