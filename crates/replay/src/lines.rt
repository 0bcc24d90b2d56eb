// The lines of the input: the name of a call, and behind a space what it takes. A text is always last, and may have spaces.
use crate::saying::{Answer, Word, say_accepted, say_answer, say_yes, yes_or_no};
use crate::{retained, subscriptions, texts};
use program::{bad_line, word_and_rest};
use region::{Capacities, Cells, Kind, Nodes, Pairs};
use std::io;
use std::io::Write;

// Makes the store an empty one, of the kind that a word names. One that cannot be opened is a bad line.
fn open(store: &mut [u8], word: &[u8]) -> Answer<Word> {
    let kind = match word {
        b"retained" => Kind::Retained,
        _ => Kind::Subscriptions,
    };
    let most = Capacities {
        nodes: Nodes(2048),
        pairs: Pairs(512),
        cells: Cells(4096),
    };
    region::open(store, kind, most).ok()?;
    Some(Ok(Word(b"opened\n")))
}

// Makes a call on a text alone.
fn answer_text<W: Write>(output: &mut W, call: &[u8], words: &[u8]) -> io::Result<()> {
    match call {
        b"is_valid_topic_name" => say_accepted(output, topic::is_valid_topic_name(words)),
        b"is_valid_topic_filter" => say_accepted(output, topic::is_valid_topic_filter(words)),
        b"is_valid_subscription_filter" => {
            say_accepted(output, topic::is_valid_subscription_filter(words))
        }
        b"is_shared_subscription" => say_yes(output, topic::is_shared_subscription(words)),
        b"is_limit_subscription" => say_yes(output, topic::is_limit_subscription(words)),
        b"is_exclusive_subscription" => say_yes(output, topic::is_exclusive_subscription(words)),
        b"parse" => texts::parse(output, words),
        b"level_kind" => say_answer(output, texts::level_kind(words)),
        b"level_part" => texts::level_part(output, words),
        b"matches" | b"matches_str" => say_answer(output, texts::matches(words)),
        _ => bad_line(output),
    }
}

// Makes a call that changes nothing.
fn ask<W: Write>(output: &mut W, store: &[u8], call: &[u8], words: &[u8]) -> io::Result<()> {
    match call {
        b"is_match" => say_answer(output, Some(trie::is_match(store, words).map(yes_or_no))),
        b"listing" => subscriptions::listing(output, store, words),
        b"nodes_size" => say_answer(output, Some(trie::nodes_size(store).map(|nodes| nodes.0))),
        b"values_size" => say_answer(output, Some(trie::values_size(store).map(|pairs| pairs.0))),
        b"lookup" => retained::lookup(output, store, words),
        b"page" => say_answer(output, retained::page(store, words)),
        b"count" => say_answer(output, Some(retain::count(store).map(|names| names.0))),
        _ => answer_text(output, call, words),
    }
}

// Makes the call of a line.
fn answer<W: Write>(output: &mut W, store: &mut [u8], line: &[u8]) -> io::Result<()> {
    let (call, words) = word_and_rest(line);
    match call {
        b"insert" => say_answer(output, subscriptions::insert(store, words)),
        b"remove" => say_answer(output, subscriptions::remove(store, words)),
        b"set" => say_answer(output, retained::set(store, words)),
        b"sweep" => say_answer(output, retained::sweep(store, words)),
        b"open" => say_answer(output, open(store, words)),
        _ => ask(output, store, call, words),
    }
}

pub fn run<W: Write>(output: &mut W, input: &[u8], store: &mut [u8]) -> io::Result<()> {
    for line in input.split_inclusive(|b| *b == b'\n') {
        answer(output, store, line.strip_suffix(b"\n").unwrap_or(line))?;
    }
    Ok(())
}
