// The records of a listing or a lookup, printed: each with its text and its numbers, and then how many there are.
ghost use Rattle.std.specs.Prelude.{◌+◌, ◌≤◌, ◌<◌, length, IfOk, IfSome};
ghost use Rattle.std.specs.Iterator.{at_most};

use crate::saying::{say, say_number};
use std::io;
use std::io::Write;

// The text at the front of a record, behind a mark and its own length, and what stands behind it.
fn text_of(bytes: &[u8]) -> Option<(&[u8], &[u8])>
    ensures begins { IfSome result (λ p. length p.1.now + 4 ≤ length bytes.now) }
    ensures ends { IfSome result (λ p. length bytes.now ≤ length p.1.now + 65539) }
{
    let (head, behind) = bytes.split_at_checked(4)?;
    behind.split_at_checked(lent::get16(head, 2) as usize)
}

// A record of a listing: a filter, and its values of four bytes each, of which there are fewer than 65,536.
#[derive(Clone, Copy)]
struct Hit<'a> {
    filter: &'a [u8],
    values: &'a [u8],
    ghost few: { length values.now < 262144 },
}

// The record at the front, and what stands behind it.
fn hit_of(bytes: &[u8]) -> Option<(Hit<'_>, &[u8])>
    ensures behind { IfSome result (λ p. length p.1.now + length p.0.values.now + 6 ≤ length bytes.now) }
{
    let (filter, behind) = text_of(bytes)?;
    let (count, behind) = behind.split_at_checked(2)?;
    let (values, behind) = behind.split_at_checked(4 * lent::get16(count, 0) as usize)?;
    Some((Hit { filter, values }, behind))
}

// The records of a listing that are left.
#[derive(Drop)]
struct Hits<'a>(&'a [u8]);

impl<'a> Iterator for Hits<'a> {
    type Item = Hit<'a>;

    ghost remaining = { λ s. at_most (length s.0.now) };

    fn next(&mut self) -> Option<Hit<'a>> {
        let (hit, behind) = hit_of(self.0)?;
        self.0 = behind;
        Some(hit)
    }
}

// A record of a lookup: a name, its handle and the time that is left.
#[derive(Clone, Copy)]
struct Kept<'a> {
    name: &'a [u8],
    handle: u64,
    left: u64,
}

// The record at the front, and what stands behind it: a record takes some bytes, and at most 65,551.
fn kept_of(bytes: &[u8]) -> Option<(Kept<'_>, &[u8])>
    ensures begins { IfSome result (λ p. length p.1.now < length bytes.now) }
    ensures ends { IfSome result (λ p. length bytes.now ≤ length p.1.now + 65551) }
{
    let (name, behind) = text_of(bytes)?;
    let (numbers, behind) = behind.split_at_checked(12)?;
    let handle = lent::get32(numbers, 0);
    let left = lent::get64(numbers, 4);
    Some((Kept { name, handle, left }, behind))
}

// The records of a lookup that are left.
#[derive(Drop)]
struct Names<'a>(&'a [u8]);

impl<'a> Iterator for Names<'a> {
    type Item = Kept<'a>;

    ghost remaining = { λ s. at_most (length s.0.now) };

    fn next(&mut self) -> Option<Kept<'a>> {
        let (kept, behind) = kept_of(self.0)?;
        self.0 = behind;
        Some(kept)
    }
}

// The filter of a record with its values; answers how many values it has.
fn say_hit<W: Write>(output: &mut W, hit: Hit<'_>) -> io::Result<usize>
    ensures { IfOk result (λ count. count < 65536) }
{
    say(output, b"hit ")?;
    say(output, hit.filter)?;
    for value in hit.values.chunks_exact(4) {
        say(output, b" ")?;
        say_number(output, lent::get32(value, 0))?;
    }
    Ok(hit.values.len() / 4)
}

// All records of a listing, in the first bytes of a buffer; `after` stands behind each.
pub fn say_listing<W: Write>(
    output: &mut W,
    out: &[u8],
    bytes: usize,
    records: usize,
    after: &[u8],
) -> io::Result<()> {
    let mut values: usize = 0;
    for hit in Hits(&out[..bytes.min(out.len())]) {
        values = values.saturating_add(say_hit(output, hit)?);
        say(output, after)?;
    }
    say(output, b"total ")?;
    say_number(output, records as u64)?;
    say(output, b" ")?;
    say_number(output, values as u64)?;
    say(output, b"\n")
}

// The name of a record, its handle and the time that is left.
fn say_kept<W: Write>(output: &mut W, kept: Kept<'_>) -> io::Result<()> {
    say(output, b"kept ")?;
    say(output, kept.name)?;
    say(output, b" ")?;
    say_number(output, kept.handle)?;
    say(output, b" ")?;
    say_number(output, kept.left)
}

// All records of a lookup, in the first bytes of a buffer; `after` stands behind each.
pub fn say_lookup<W: Write>(
    output: &mut W,
    out: &[u8],
    bytes: usize,
    records: usize,
    after: &[u8],
) -> io::Result<()> {
    for kept in Names(&out[..bytes.min(out.len())]) {
        say_kept(output, kept)?;
        say(output, after)?;
    }
    say(output, b"total ")?;
    say_number(output, records as u64)?;
    say(output, b"\n")
}
