// Standard input, line by line. A line has at most 4,096 bytes before its newline; a longer one is one bad line. The last line may
// lack its newline.
ghost use Rattle.std.specs.Prelude.{◌≤◌, IfOk, length};

use crate::answers::Course;
use std::io;
use std::io::{Read, Write};

const LONGEST: usize = 4096;

// The line that is being read. Of one that is too long the first bytes are kept, and LONGEST + 1 have come.
#[derive(Drop)]
struct Line {
    bytes: [u8; LONGEST],
    come: usize,
    ghost most: { come ≤ 4097 },
}

impl Line {
    // What has come; None where it is too long.
    fn text(&self) -> Option<&[u8]> {
        self.bytes.get(..self.come)
    }

    fn push(&mut self, byte: u8) {
        if self.come < LONGEST {
            self.bytes[self.come] = byte;
        }
        self.come = (self.come + 1).min(LONGEST + 1);
    }

    // Answers the line, and begins the next.
    fn end<W: Write>(&mut self, course: &mut Course<W>) -> io::Result<()> {
        match self.text() {
            Some(text) => course.answer(text)?,
            None => course.bad_line()?,
        }
        self.come = 0;
        Ok(())
    }

    // The bytes that were read.
    fn take<W: Write>(&mut self, course: &mut Course<W>, bytes: &[u8]) -> io::Result<()> {
        for byte in bytes {
            match *byte {
                b'\n' => self.end(course)?,
                byte => self.push(byte),
            }
        }
        Ok(())
    }
}

// Reads what there is, and answers how many bytes came.
fn read_some<R: Read>(input: &mut R, chunk: &mut [u8]) -> io::Result<usize>
    ensures { IfOk result (λ n. n ≤ length chunk.new) }
{
    input.read(chunk)
}

// A proved loop has to end, and nothing says that the input does. So it reads at most a number of times that no run uses up.
pub fn run<R: Read, W: Write>(input: &mut R, course: &mut Course<W>) -> io::Result<()> {
    let mut line = Line {
        bytes: [0; LONGEST],
        come: 0,
    };
    let mut chunk: [u8; 4096] = [0; 4096];
    for _ in 0..u64::MAX {
        let n = read_some(input, &mut chunk)?;
        if n == 0 {
            break;
        }
        line.take(course, &chunk[..n])?;
    }
    if 0 < line.come {
        line.end(course)?;
    }
    Ok(())
}
