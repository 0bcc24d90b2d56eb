// How the answers about texts are printed.
use program::{say, say_number, say_refusal};
use refusal::Refusal;
use std::io;
use std::io::Write;

pub fn say_parsed<W: Write>(output: &mut W, parsed: Result<usize, Refusal>) -> io::Result<()> {
    match parsed {
        Ok(count) => {
            say(output, b"levels ")?;
            say_number(output, count as u64)?;
            say(output, b"\n")
        }
        Err(refusal) => say_refusal(output, refusal),
    }
}

pub fn say_matched<W: Write>(output: &mut W, matched: Result<bool, Refusal>) -> io::Result<()> {
    match matched {
        Ok(true) => say(output, b"yes\n"),
        Ok(false) => say(output, b"no\n"),
        Err(refusal) => say_refusal(output, refusal),
    }
}
