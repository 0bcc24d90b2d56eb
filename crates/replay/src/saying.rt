// How answers are printed. The Rust only refuses where this library has a number, so a refusal is the word alone.
use program::{bad_line, say, say_number};
use refusal::Refusal;
use std::io;
use std::io::Write;

// What the call of a line answers; None where the line is bad.
pub type Answer<T> = Option<Result<T, Refusal>>;

// What can stand on a line of its own. It is printed with the newline.
pub trait Line {
    fn say<W: Write>(self, output: &mut W) -> io::Result<()>;
}

// A word goes out whole: nothing stands between it and standard output.
#[derive(Clone, Copy)]
pub struct Word(pub &'static [u8]);

impl Line for Word {
    fn say<W: Write>(self, output: &mut W) -> io::Result<()> {
        say(output, self.0)
    }
}

impl Line for u64 {
    fn say<W: Write>(self, output: &mut W) -> io::Result<()> {
        say_number(output, self)?;
        say(output, b"\n")
    }
}

pub fn say_answer<W: Write, T: Line + Drop>(output: &mut W, answer: Answer<T>) -> io::Result<()> {
    match answer {
        Some(Ok(line)) => line.say(output),
        Some(Err(_)) => say_refused(output),
        None => bad_line(output),
    }
}

pub fn say_refused<W: Write>(output: &mut W) -> io::Result<()> {
    writeln!(output, "refused")
}

pub fn yes_or_no(yes: bool) -> Word {
    if yes { Word(b"yes\n") } else { Word(b"no\n") }
}

pub fn say_yes<W: Write>(output: &mut W, yes: bool) -> io::Result<()> {
    say_answer(output, Some(Ok(yes_or_no(yes))))
}

pub fn say_accepted<W: Write>(output: &mut W, answer: Result<(), Refusal>) -> io::Result<()> {
    say_answer(output, Some(answer.map(|_| Word(b"accepted\n"))))
}
