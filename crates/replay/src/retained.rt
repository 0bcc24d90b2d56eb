// The calls on a store of retained names.
use crate::saying::{Answer, Line, say_refused};
use program::{bad_line, number_of, say, say_lookup, say_number, word_and_rest};
use std::io;
use std::io::Write;

// A payload's length, a handle, a moment or `never`, and a name.
pub fn set(store: &mut [u8], words: &[u8]) -> Answer<u64> {
    let (payload, words) = word_and_rest(words);
    let (handle, words) = word_and_rest(words);
    let (moment, name) = word_and_rest(words);
    Some(retain::set(
        store,
        name,
        number_of(payload)?,
        number_of(handle)?,
        number_of(moment),
    ))
}

// A clock.
pub fn sweep(store: &mut [u8], word: &[u8]) -> Answer<u64> {
    Some(retain::remove_expired(store, number_of(word)?))
}

// A clock, and a filter.
pub fn lookup<W: Write>(output: &mut W, store: &[u8], words: &[u8]) -> io::Result<()> {
    let mut room: [u8; 65536] = [0; 65536];
    let (clock, filter) = word_and_rest(words);
    let Some(clock) = number_of(clock) else {
        return bad_line(output);
    };
    match retain::get(store, filter, clock, &mut room) {
        Ok(listed) => say_lookup(output, &room, listed.bytes, listed.records, b"; "),
        Err(_) => say_refused(output),
    }
}

// How many records a page has, and whether more follow.
#[derive(Clone, Copy)]
pub struct Given {
    records: usize,
    more: bool,
}

impl Line for Given {
    fn say<W: Write>(self, output: &mut W) -> io::Result<()> {
        say_number(output, self.records as u64)?;
        if self.more {
            say(output, b" more\n")
        } else {
            say(output, b" no more\n")
        }
    }
}

// A clock, how many records are skipped, and how many are given at most.
pub fn page(store: &[u8], words: &[u8]) -> Answer<Given> {
    let (clock, words) = word_and_rest(words);
    let (offset, limit) = word_and_rest(words);
    let clock = number_of(clock)?;
    let offset = number_of(offset)?;
    let limit = number_of(limit)?;
    // behind the numbers: a bad line fills no room
    let mut room: [u8; 65536] = [0; 65536];
    let page = retain::get_all_paginated(store, clock, offset, limit, &mut room);
    Some(page.map(|page| Given {
        records: page.records,
        more: page.more,
    }))
}
