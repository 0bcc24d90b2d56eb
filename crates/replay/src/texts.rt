// The calls on texts: parsing, levels, and whether a filter takes a name.
use crate::saying::{Answer, Word, yes_or_no};
use level::Kind;
use program::{bad_line, number_of, say, say_number, say_refusal, word_and_rest};
use refusal::Refusal;
use std::io;
use std::io::Write;

// The Rust tells the two faults of parsing apart, and names the level that is bad.
pub fn parse<W: Write>(output: &mut W, text: &[u8]) -> io::Result<()> {
    match topic::parse(text) {
        Ok(count) => {
            say(output, b"levels ")?;
            say_number(output, count as u64)?;
            say(output, b"\n")
        }
        Err(refusal @ Refusal::BadLevel { place: _ }) => say_refusal(output, refusal),
        Err(refusal) => {
            say(output, b"refused ")?;
            say_number(output, refusal::number(refusal))?;
            say(output, b"\n")
        }
    }
}

// The word for a level's kind; `none` where there is no such level.
fn word_of(kind: Option<Kind>) -> Word {
    match kind {
        None => Word(b"none\n"),
        Some(Kind::Normal) => Word(b"normal\n"),
        Some(Kind::Metadata) => Word(b"metadata\n"),
        Some(Kind::Blank) => Word(b"blank\n"),
        Some(Kind::SingleWildcard) => Word(b"single wildcard\n"),
        Some(Kind::MultiWildcard) => Word(b"multi wildcard\n"),
    }
}

// The number of a level, and the text.
pub fn level_kind(words: &[u8]) -> Answer<Word> {
    let (k, text) = word_and_rest(words);
    Some(Ok(word_of(topic::level_kind(text, number_of(k)?))))
}

// The number of a level, and the text.
pub fn level_part<W: Write>(output: &mut W, words: &[u8]) -> io::Result<()> {
    let (k, text) = word_and_rest(words);
    let Some(k) = number_of(k) else {
        return bad_line(output);
    };
    say(output, b"'")?;
    say(output, topic::level_part(text, k))?;
    say(output, b"'\n")
}

// A filter, and a name. The Rust has two functions for this, and the library one call.
pub fn matches(words: &[u8]) -> Answer<Word> {
    let (filter, name) = word_and_rest(words);
    Some(topic::matches(filter, name).map(yes_or_no))
}
