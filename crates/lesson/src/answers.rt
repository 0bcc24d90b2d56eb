// The answer to a line.
use crate::words;
use crate::words::Command;
use program::{bad_line, say, say_listing, say_number};
use refusal::Refusal;
use std::io;
use std::io::Write;

// The course shows a refusal by its number alone.
pub fn say_refusal<W: Write>(output: &mut W, refusal: Refusal) -> io::Result<()> {
    say(output, b"refused ")?;
    say_number(output, refusal::number(refusal))?;
    say(output, b"\n")
}

// `yes` where something changed, else `no`. Each has its newline: nothing stands between it and standard output, so it goes out
// whole.
fn say_changed<W: Write>(
    output: &mut W,
    changed: Result<u64, Refusal>,
    yes: &[u8],
    no: &[u8],
) -> io::Result<()> {
    match changed {
        Ok(1) => say(output, yes),
        Ok(_) => say(output, no),
        Err(refusal) => say_refusal(output, refusal),
    }
}

// Where the answers go, the store, and the room for the records that reach a name. A store for 512 nodes, pairs and cells needs
// 64 + 17 * 1536 bytes.
#[derive(Drop)]
pub struct Course<W> {
    pub output: W,
    pub store: [u8; 26176],
    pub room: [u8; 65536],
}

impl<W: Write> Course<W> {
    fn list(&mut self, name: &[u8]) -> io::Result<()> {
        match trie::matches(&self.store, name, &mut self.room) {
            Ok(listed) => say_listing(
                &mut self.output,
                &self.room,
                listed.bytes,
                listed.records,
                b"\n",
            ),
            Err(refusal) => say_refusal(&mut self.output, refusal),
        }
    }

    pub fn bad_line(&mut self) -> io::Result<()> {
        bad_line(&mut self.output)
    }

    pub fn answer(&mut self, line: &[u8]) -> io::Result<()> {
        match words::command_of(line) {
            Some(Command::Sub { value, filter }) => {
                let changed = trie::insert(&mut self.store, filter, value);
                say_changed(&mut self.output, changed, b"added\n", b"there\n")
            }
            Some(Command::Unsub { value, filter }) => {
                let changed = trie::remove(&mut self.store, filter, value);
                say_changed(&mut self.output, changed, b"gone\n", b"absent\n")
            }
            Some(Command::Match { name }) => self.list(name),
            None => self.bad_line(),
        }
    }
}
