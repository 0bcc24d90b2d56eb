// What a line says: a command with its words, or nothing that is known.
use program::{number_of, split_word};

// A line that the program takes. Its texts are parts of the line.
#[derive(Clone, Copy)]
pub enum Command<'a> {
    Sub { value: u32, filter: &'a [u8] },
    Unsub { value: u32, filter: &'a [u8] },
    Match { name: &'a [u8] },
}

// A value, and behind a space a filter.
fn value_and_filter(words: &[u8]) -> Option<(u32, &[u8])> {
    let (value, filter) = split_word(words)?;
    Some((number_of(value)?, filter))
}

// One space stands between words, and the rest of the line is the filter or the name.
pub fn command_of(line: &[u8]) -> Option<Command<'_>> {
    let (call, words) = split_word(line)?;
    match call {
        b"sub" => {
            let (value, filter) = value_and_filter(words)?;
            Some(Command::Sub { value, filter })
        }
        b"unsub" => {
            let (value, filter) = value_and_filter(words)?;
            Some(Command::Unsub { value, filter })
        }
        b"match" => Some(Command::Match { name: words }),
        _ => None,
    }
}
