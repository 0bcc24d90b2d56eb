// The cases on texts. Most stand in `stdin`, a call to a line; those that are no line of text stand here.
use crate::saying::{say_matched, say_parsed};
use program::{say, say_checked, word_and_rest};
use std::io;
use std::io::{Read, Write};

// The three validity tests, of a text that has a label.
fn tests<W: Write>(output: &mut W, label: &str, text: &[u8]) -> io::Result<()> {
    write!(output, "{label}: name ")?;
    say_checked(output, topic::is_valid_topic_name(text))?;
    write!(output, "{label}: filter ")?;
    say_checked(output, topic::is_valid_topic_filter(text))?;
    write!(output, "{label}: subscription ")?;
    say_checked(output, topic::is_valid_subscription_filter(text))
}

// A line `match FILTER NAME`, from the filter on.
fn run_match<W: Write>(output: &mut W, words: &[u8]) -> io::Result<()> {
    let (filter, name) = word_and_rest(words);
    say_matched(output, topic::matches(filter, name))
}

// A line: the name of a call, a space, and its text.
fn run_line<W: Write>(output: &mut W, line: &[u8]) -> io::Result<()> {
    say(output, line)?;
    write!(output, ": ")?;
    let (call, text) = word_and_rest(line);
    match call {
        b"parse" => say_parsed(output, topic::parse(text)),
        b"name" => say_checked(output, topic::is_valid_topic_name(text)),
        b"filter" => say_checked(output, topic::is_valid_topic_filter(text)),
        b"subscription" => say_checked(output, topic::is_valid_subscription_filter(text)),
        _ => run_match(output, text),
    }
}

fn run_lines<W: Write>(output: &mut W, text: &[u8]) -> io::Result<()> {
    for line in text.split_inclusive(|b| *b == b'\n') {
        run_line(output, line.strip_suffix(b"\n").unwrap_or(line))?;
    }
    Ok(())
}

// What stands on standard input, read into the space lent.
fn run_input<R: Read, W: Write>(input: &mut R, output: &mut W, space: &mut [u8]) -> io::Result<()> {
    let n = program::read_full(input, space)?;
    run_lines(output, &space[..n])
}

// "65,535 bytes pass, 65,536 give 2."
fn lengths<W: Write>(output: &mut W) -> io::Result<()> {
    let text = [b'a'; 65536];
    tests(output, "65535 bytes", &text[..65535])?;
    tests(output, "65536 bytes", &text)
}

// "Bytes F4 8F BF BF pass, F4 90 80 80, ED A0 80 and C0 80 give 3." And NUL gives 4.
fn octets<W: Write>(output: &mut W) -> io::Result<()> {
    tests(output, "F4 8F BF BF", b"\xF4\x8F\xBF\xBF")?;
    tests(output, "F4 90 80 80", b"\xF4\x90\x80\x80")?;
    tests(output, "ED A0 80", b"\xED\xA0\x80")?;
    tests(output, "C0 80", b"\xC0\x80")?;
    tests(output, "NUL", b"\0")
}

pub fn run<R: Read, W: Write>(input: &mut R, output: &mut W) -> io::Result<()> {
    lengths(output)?;
    octets(output)?;
    let mut space: [u8; 4096] = [0; 4096];
    run_input(input, output, &mut space)
}
