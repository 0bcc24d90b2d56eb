// The cases on a store of subscriptions.
use crate::case::Case;
use region::Kind;
use std::io;
use std::io::Write;

// "With N = 2: `a/b`, `a` accepted, `c` 13; `a/b` removed, `c` accepted."
fn two_nodes<W: Write>(output: &mut W) -> io::Result<()> {
    let mut space: [u8; 512] = [0; 512];
    let mut case = Case {
        output,
        store: &mut space,
    };
    case.open(Kind::Subscriptions, 2, 8, 8)?;
    case.insert("insert a/b", b"a/b", 1)?;
    case.insert("insert a", b"a", 1)?;
    case.insert("insert c", b"c", 1)?;
    case.remove("remove a/b", b"a/b", 1)?;
    case.insert("insert c", b"c", 1)?;
    case.insert("insert c", b"c", 1)
}

// "16 bytes are 1 cell, 17 are 2."
fn one_cell<W: Write>(output: &mut W) -> io::Result<()> {
    let mut space: [u8; 512] = [0; 512];
    let mut case = Case {
        output,
        store: &mut space,
    };
    case.open(Kind::Subscriptions, 8, 8, 1)?;
    case.insert("insert 17 bytes", b"abcdefghijklmnopq", 1)?;
    case.insert("insert 16 bytes", b"abcdefghijklmnop", 1)?;
    case.insert("insert +/#", b"+/#", 1)
}

// "128 levels pass, 129 give 12."
fn many_levels<W: Write>(output: &mut W) -> io::Result<()> {
    let mut space: [u8; 4096] = [0; 4096];
    let mut case = Case {
        output,
        store: &mut space,
    };
    let filter = [b'/'; 128];
    case.open(Kind::Subscriptions, 130, 8, 8)?;
    case.insert("insert 128 levels", &filter[..127], 1)?;
    case.insert("insert 129 levels", &filter, 1)?;
    case.remove("remove 129 levels", &filter, 1)
}

// "`#` with value 5 is `46 4D 00 01 23 00 01 00 00 00 05`." And `a/#` once for `a`; a name with wildcards is refused.
fn records<W: Write>(output: &mut W) -> io::Result<()> {
    let mut space: [u8; 512] = [0; 512];
    let mut case = Case {
        output,
        store: &mut space,
    };
    case.open(Kind::Subscriptions, 8, 8, 8)?;
    case.insert("insert #", b"#", 5)?;
    case.list("b")?;
    case.insert("insert a/#", b"a/#", 7)?;
    case.list("a")?;
    case.list("$SYS")?;
    case.list("a/+")
}

pub fn run<W: Write>(output: &mut W) -> io::Result<()> {
    two_nodes(output)?;
    one_cell(output)?;
    many_levels(output)?;
    records(output)
}
