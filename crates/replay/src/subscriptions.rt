// The calls on a store of subscriptions.
use crate::saying::{Answer, say_refused};
use program::{number_of, say_listing, word_and_rest};
use std::io;
use std::io::Write;

// A value, and a filter.
fn value_and_filter(words: &[u8]) -> Option<(u32, &[u8])> {
    let (value, filter) = word_and_rest(words);
    Some((number_of(value)?, filter))
}

pub fn insert(store: &mut [u8], words: &[u8]) -> Answer<u64> {
    let (value, filter) = value_and_filter(words)?;
    Some(trie::insert(store, filter, value))
}

pub fn remove(store: &mut [u8], words: &[u8]) -> Answer<u64> {
    let (value, filter) = value_and_filter(words)?;
    Some(trie::remove(store, filter, value))
}

pub fn listing<W: Write>(output: &mut W, store: &[u8], name: &[u8]) -> io::Result<()> {
    let mut room: [u8; 65536] = [0; 65536];
    match trie::matches(store, name, &mut room) {
        Ok(listed) => say_listing(output, &room, listed.bytes, listed.records, b"; "),
        Err(_) => say_refused(output),
    }
}
