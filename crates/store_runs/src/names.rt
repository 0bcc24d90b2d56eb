// The cases on a store of retained names.
use crate::case::Case;
use region::Kind;
use std::io;
use std::io::Write;

// "Moment 1000: at 999 listed with 1 left, at 1000 not listed, count still 1." A smaller time later shows it again, until swept.
fn moment<W: Write>(output: &mut W) -> io::Result<()> {
    let mut space: [u8; 512] = [0; 512];
    let mut case = Case {
        output,
        store: &mut space,
    };
    case.open(Kind::Retained, 8, 8, 8)?;
    case.set("set a", b"a", 1, 3, Some(1000))?;
    case.look("at 999", b"a", 999)?;
    case.look("at 1000", b"a", 1000)?;
    case.count()?;
    case.look("at 999", b"#", 999)?;
    case.set("set a again", b"a", 1, 4, Some(1000))?;
    case.sweep("sweep at 999", 999)?;
    case.sweep("sweep at 1000", 1000)?;
    case.count()?;
    case.look("at 999", b"#", 999)
}

// "So `a`, `a/b`, `a!`." And the answers of erasing.
fn order<W: Write>(output: &mut W) -> io::Result<()> {
    let mut space: [u8; 512] = [0; 512];
    let mut case = Case {
        output,
        store: &mut space,
    };
    case.open(Kind::Retained, 8, 8, 8)?;
    case.set("set a!", b"a!", 1, 1, None)?;
    case.set("set a/b", b"a/b", 1, 2, None)?;
    case.set("set a", b"a", 1, 3, None)?;
    case.look("#", b"#", 0)?;
    case.set("erase a/b", b"a/b", 0, 0, None)?;
    case.set("erase a/b", b"a/b", 0, 0, None)?;
    case.look("a/#", b"a/#", 0)?;
    case.set("set a/#", b"a/#", 1, 1, None)
}

pub fn run<W: Write>(output: &mut W) -> io::Result<()> {
    moment(output)?;
    order(output)
}
