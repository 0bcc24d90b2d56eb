// How the programs print: texts, numbers, bad lines and refusals. The first write that fails is the error.
ghost use Rattle.std.specs.Prelude.{IfErr, IfOk, IfSome, OnOk, Some, ◌++◌, codes, decimal};
ghost use Rattle.std.specs.Io.KnownBytes.{Appends};
ghost use Rattle.refusal.specs.Refusals.{told};

use refusal::Refusal;
use std::io::Write;
use std::{fmt, io};

// Bytes as they are. They need not be UTF-8, so `write!` has no form for them.
pub fn say<W: Write>(output: &mut W, text: &[u8]) -> io::Result<()>
    ensures { OnOk result (Appends (W.contents output.old) (W.contents output.new) text.now) }
{
    output.write_all(text)
}

pub fn say_number<W: Write>(output: &mut W, n: u64) -> io::Result<()>
    ensures { OnOk result (Appends (W.contents output.old) (W.contents output.new) (decimal n)) }
{
    write!(output, "{n}")
}

// The answer to a line that the program does not take.
pub fn bad_line<W: Write>(output: &mut W) -> io::Result<()>
    ensures { OnOk result (Appends (W.contents output.old) (W.contents output.new) (codes "bad line\n")) }
{
    writeln!(output, "bad line")
}

// A refusal is shown by its number and its place.
#[derive(Clone, Copy)]
pub struct Shown(pub Refusal);

impl fmt::Display for Shown {
    ghost output = { λ s. Some (codes "refused " ++ decimal (told s.0).number ++ codes " at " ++ decimal (told s.0).place) };

    fn fmt<W: fmt::Write>(&self, f: &mut fmt::Formatter<W>) -> fmt::Result {
        let number = refusal::number(self.0);
        let place = refusal::place(self.0);
        write!(f, "refused {number} at {place}")
    }
}

pub fn say_refusal<W: Write>(output: &mut W, refusal: Refusal) -> io::Result<()>
    ensures { OnOk result (Appends (W.contents output.old) (W.contents output.new)
        (codes "refused " ++ decimal (told refusal).number ++ codes " at " ++ decimal (told refusal).place ++ codes "\n")) }
{
    let shown = Shown(refusal);
    writeln!(output, "{shown}")
}

// What a call answers, by what it displays, or its refusal.
pub fn say_result<W: Write, T: fmt::Display + Drop>(
    output: &mut W,
    answer: Result<T, Refusal>,
) -> io::Result<()>
    ensures shown { IfOk answer (λ value. IfSome (T.output value)
        (λ text. OnOk result (Appends (W.contents output.old) (W.contents output.new) (text ++ codes "\n")))) }
    ensures refused { IfErr answer (λ refusal. OnOk result (Appends (W.contents output.old) (W.contents output.new)
        (codes "refused " ++ decimal (told refusal).number ++ codes " at " ++ decimal (told refusal).place ++ codes "\n"))) }
{
    match answer {
        Ok(value) => writeln!(output, "{value}"),
        Err(refusal) => say_refusal(output, refusal),
    }
}

// What a test answers: that the text is accepted, or the refusal.
pub fn say_checked<W: Write>(output: &mut W, checked: Result<(), Refusal>) -> io::Result<()>
    ensures accepted { IfOk checked (λ _. OnOk result (Appends (W.contents output.old) (W.contents output.new) (codes "accepted\n"))) }
    ensures refused { IfErr checked (λ refusal. OnOk result (Appends (W.contents output.old) (W.contents output.new)
        (codes "refused " ++ decimal (told refusal).number ++ codes " at " ++ decimal (told refusal).place ++ codes "\n"))) }
{
    match checked {
        Ok(()) => writeln!(output, "accepted"),
        Err(refusal) => say_refusal(output, refusal),
    }
}
