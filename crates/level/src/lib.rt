// The levels of a text: what stands between its '/'s. A level is handed out as a part of the caller's own bytes.
#![tactic(auto)]

mod levels;

ghost use Rattle.std.specs.Prelude.{◌≡◌, length, drop};
ghost use Rattle.level.specs.Levels.{split, start_of, has};
ghost use Rattle.level.specs.Kinds.{is_only, wild, dollar, bad, same, kind_of};
ghost use Rattle.level.specs.Places.{first, end_of};

pub use levels::{Levels, levels_of};

// What a level is.
#[derive(Clone, Copy, Debug, PartialEq, Eq)]
pub enum Kind {
    Normal,
    Metadata,
    Blank,
    SingleWildcard,
    MultiWildcard,
}

// Where the level that begins at `from` ends. It is asked for each level of each record of a listing, and by the places themselves
// it is found in less time than by `position` of what is left of the text.
pub fn level_end(text: &[u8], from: usize) -> usize
    ensures { result ≡ end_of text.now from }
{
    for i in from..text.len() {
        if text[i] == b'/' {
            return i;
        }
    }
    from.max(text.len())
}

// How many levels the text has.
pub fn level_count(text: &[u8]) -> usize
    ensures { result ≡ length (split text.now) }
{
    1 + text.iter().filter(|byte| **byte == b'/').count()
}

// Where level k begins; past the end, one more than the text's length.
pub fn level_start(text: &[u8], k: usize) -> usize
    ensures { result ≡ start_of text.now k }
{
    let mut at = 0;
    for _ in 0..k {
        if text.len() < at {
            return at;
        }
        at = level_end(text, at) + 1;
    }
    at
}

// The level that begins at a position; empty past the end.
pub fn part_at(text: &[u8], at: usize) -> &[u8]
    ensures { result.now ≡ first (drop at text.now) }
{
    if text.len() < at {
        return &[];
    }
    &text[at..level_end(text, at)]
}

// The text from a position on; empty past the end.
pub fn text_from(text: &[u8], at: usize) -> &[u8]
    ensures { result.now ≡ drop at text.now }
{
    text.get(at..).unwrap_or(&[])
}

// The same bytes.
pub fn same_bytes(a: &[u8], b: &[u8]) -> bool
    ensures { result ≡ same a.now b.now }
{
    a == b
}

// The byte is among the bytes.
pub fn has_byte(bytes: &[u8], byte: u8) -> bool
    ensures { result ≡ has byte bytes.now }
{
    bytes.contains(&byte)
}

// A '+' or a '#' is among the bytes.
pub fn has_wildcard(bytes: &[u8]) -> bool
    ensures { result ≡ wild bytes.now }
{
    bytes.iter().any(|byte| matches!(*byte, b'+' | b'#'))
}

// The level is the one byte and nothing else.
pub fn is_only(level: &[u8], byte: u8) -> bool
    ensures { result ≡ is_only byte level.now }
{
    matches!(level, [only] if *only == byte)
}

// The level begins with '$'.
pub fn is_metadata(level: &[u8]) -> bool
    ensures { result ≡ dollar level.now }
{
    matches!(level, [b'$', ..])
}

// The level is longer than a wildcard and has one in it.
pub fn is_bad(level: &[u8]) -> bool
    ensures { result ≡ bad level.now }
{
    1 < level.len() && has_wildcard(level)
}

// What a level that is not bad is.
pub fn kind_of(level: &[u8]) -> Kind
    ensures { result ≡ kind_of level.now }
{
    match level {
        [] => Kind::Blank,
        [b'+'] => Kind::SingleWildcard,
        [b'#'] => Kind::MultiWildcard,
        [b'$', ..] => Kind::Metadata,
        _ => Kind::Normal,
    }
}
