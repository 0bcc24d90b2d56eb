// Parsing a text into its levels, and the levels one by one, as parts of the caller's own bytes.
ghost use Rattle.std.specs.Prelude.{◌≡◌};
ghost use Rattle.topic.specs.Answers.{parsed, start_at, kind_at, part_at, place_at};

use crate::faults::check_levels;
use level::Kind;
use refusal::Refusal;

// How many levels the text has, or why it does not parse.
pub fn parse(text: &[u8]) -> Result<usize, Refusal>
    ensures { result ≡ parsed text.now }
{
    if !utf8::is_utf8(text) {
        return Err(Refusal::NotUtf8);
    }
    check_levels(text)?;
    Ok(level::level_count(text))
}

// Where level k begins, if the text parses and has one.
fn level_at(text: &[u8], k: usize) -> Option<usize>
    ensures { result ≡ start_at text.now k }
{
    let count = parse(text).ok()?;
    if k < count {
        Some(level::level_start(text, k))
    } else {
        None
    }
}

// Where level k begins; the text's length where there is no such level.
pub fn level_place(text: &[u8], k: usize) -> usize
    ensures { result ≡ place_at text.now k }
{
    level_at(text, k).unwrap_or(text.len())
}

// What level k is, if there is such a level.
pub fn level_kind(text: &[u8], k: usize) -> Option<Kind>
    ensures { result ≡ kind_at text.now k }
{
    let at = level_at(text, k)?;
    Some(level::kind_of(level::part_at(text, at)))
}

// Level k, as a part of the text; an empty part where there is no such level.
pub fn level_part(text: &[u8], k: usize) -> &[u8]
    ensures { result.now ≡ part_at text.now k }
{
    match level_at(text, k) {
        Some(at) => level::part_at(text, at),
        None => &[],
    }
}
