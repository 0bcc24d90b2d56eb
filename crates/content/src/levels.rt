// The level of a row.
ghost use Rattle.std.specs.Prelude.{◌≡◌, ltb, eqb, length, cond};
ghost use Rattle.content.specs.Contents.{level_fine, fault, plain_byte, plain, plain_to};

use region::Kind;

// The level has what no level of the kind may have.
fn has_fault(level: &[u8], kind: Kind) -> bool
    ensures { result ≡ fault kind level.now }
{
    match kind {
        Kind::Subscriptions => level::is_bad(level),
        Kind::Retained => level::has_wildcard(level),
    }
}

// The byte is fine in any level.
fn is_plain_byte(byte: u8) -> bool
    ensures { result ≡ plain_byte byte }
{
    (36..=127).contains(&byte) && byte != b'+' && byte != b'/'
}

// The same for byte j of 8, of which the first `len` are a level's and the others are 0.
fn is_plain_at(byte: u8, j: usize, len: usize) -> bool
    ensures { result ≡ cond (ltb j len) (plain_byte byte) (eqb byte 0) }
{
    if j < len {
        is_plain_byte(byte)
    } else {
        byte == 0
    }
}

// Every byte is fine in any level. The fold stops nowhere, so that the compiler can take many bytes in one step: `all` would
// stop at the first byte that fails.
fn is_plain(level: &[u8]) -> bool
    ensures { result ≡ plain level.now }
{
    level
        .iter()
        .fold(true, |plain, byte| plain & is_plain_byte(*byte))
}

// The 8 bytes are a level of `len` bytes that are fine in any level, and then 0. Here too the fold stops nowhere.
pub fn is_short_plain(unit: &[u8], len: usize) -> bool
    requires { length unit.now ≡ 8 }
    ensures { result ≡ plain_to len unit.now }
{
    unit.iter().enumerate().fold(true, |plain, (j, byte)| plain & is_plain_at(*byte, j, len))
}

// Most levels pass the first test, and need no other.
#[tactic(auto, using(crate::proofs::LevelLaws::plain_level), unfolding(crate::specs::Contents::level_fine))]
pub fn level_is_sound(level: &[u8], kind: Kind) -> bool
    ensures { result ≡ level_fine kind level.now }
{
    is_plain(level)
        || utf8::is_utf8(level)
            && !level::has_byte(level, 0)
            && !level::has_byte(level, b'/')
            && !has_fault(level, kind)
}
