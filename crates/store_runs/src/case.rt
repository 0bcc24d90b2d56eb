// A store of a case, with where its answers go. Each call prints what it answers, behind a label.
use edit::Listed;
use program::{say, say_checked, say_number, say_refusal, say_result};
use refusal::Refusal;
use region::{Capacities, Cells, Kind, Nodes, Pairs};
use std::io;
use std::io::Write;

// The answer of a change.
fn say_changed<W: Write>(
    output: &mut W,
    label: &str,
    changed: Result<u64, Refusal>,
) -> io::Result<()> {
    match changed {
        Ok(answer) => {
            write!(output, "{label}: answered ")?;
            say_number(output, answer)?;
            say(output, b"\n")
        }
        Err(refusal) => {
            write!(output, "{label}: ")?;
            say_refusal(output, refusal)
        }
    }
}

// The records of a listing or a lookup, which stand at the front of a buffer, byte by byte.
fn say_listed<W: Write>(
    output: &mut W,
    label: &str,
    listed: Result<Listed, Refusal>,
    out: &[u8],
) -> io::Result<()> {
    match listed {
        Ok(listed) => {
            write!(output, "{label}:")?;
            for byte in &out[..listed.bytes.min(out.len())] {
                say(output, b" ")?;
                say_number(output, u64::from(*byte))?;
            }
            writeln!(output)
        }
        Err(refusal) => {
            write!(output, "{label}: ")?;
            say_refusal(output, refusal)
        }
    }
}

#[derive(Drop)]
pub struct Case<'a, W> {
    pub output: &'a mut W,
    pub store: &'a mut [u8],
}

impl<'a, W: Write> Case<'a, W> {
    pub fn open(&mut self, kind: Kind, nodes: u64, pairs: u64, cells: u64) -> io::Result<()> {
        let most = Capacities {
            nodes: Nodes(nodes),
            pairs: Pairs(pairs),
            cells: Cells(cells),
        };
        write!(self.output, "open: ")?;
        say_checked(self.output, region::open(self.store, kind, most))
    }

    pub fn insert(&mut self, label: &str, filter: &[u8], value: u32) -> io::Result<()> {
        let changed = trie::insert(self.store, filter, value);
        say_changed(self.output, label, changed)
    }

    pub fn remove(&mut self, label: &str, filter: &[u8], value: u32) -> io::Result<()> {
        let changed = trie::remove(self.store, filter, value);
        say_changed(self.output, label, changed)
    }

    // The label is the name.
    pub fn list(&mut self, name: &str) -> io::Result<()> {
        let mut out: [u8; 64] = [0; 64];
        let listed = trie::matches(self.store, name.as_bytes(), &mut out);
        say_listed(self.output, name, listed, &out)
    }

    pub fn set(
        &mut self,
        label: &str,
        name: &[u8],
        payload: u64,
        handle: u32,
        moment: Option<u64>,
    ) -> io::Result<()> {
        let changed = retain::set(self.store, name, payload, handle, moment);
        say_changed(self.output, label, changed)
    }

    pub fn sweep(&mut self, label: &str, clock: u64) -> io::Result<()> {
        let changed = retain::remove_expired(self.store, clock);
        say_changed(self.output, label, changed)
    }

    pub fn look(&mut self, label: &str, filter: &[u8], clock: u64) -> io::Result<()> {
        let mut out: [u8; 128] = [0; 128];
        let listed = retain::get(self.store, filter, clock, &mut out);
        say_listed(self.output, label, listed, &out)
    }

    pub fn count(&mut self) -> io::Result<()> {
        let names = retain::count(self.store).map(|names| names.0);
        write!(self.output, "count: ")?;
        say_result(self.output, names)
    }
}
