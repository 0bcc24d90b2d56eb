// Bytes copied in, one byte written many times, and bytes moved to open a gap or to close one. Copies and moves go byte by byte: a
// level has few bytes, so that a call for each would take longer, and the library's `copy_within` wants memmove from whoever links it.
ghost use Rattle.std.specs.Prelude.{◌≡◌, ◌+◌, length, leb, replicate};
ghost use Rattle.lent.specs.Total.{write, opened, closed};

// Whether `count` bytes from place `at` on lie within s. The sum of both may be no number, so it is not taken.
pub(crate) fn fits(s: &[u8], at: usize, count: usize) -> bool
    ensures { result ≡ leb (at + count) (length s.now) }
{
    count <= s.len() && at <= s.len() - count
}

// Copies all of `bytes` to place `at` of s.
pub fn copy_in(s: &mut [u8], at: usize, bytes: &[u8])
    ensures { s.new ≡ write at bytes.now s.old }
{
    if fits(s, at, bytes.len()) {
        for i in 0..bytes.len() {
            s[at + i] = bytes[i];
        }
    }
}

// Writes a byte `count` times from place `at` on.
#[tactic(auto, using(crate::proofs::Anywhere::writes))]
pub fn fill(s: &mut [u8], at: usize, count: usize, byte: u8)
    ensures { s.new ≡ write at (replicate count byte) s.old }
{
    if fits(s, at, count) {
        s[at..at + count].fill(byte);
    }
}

// Moves the bytes from `at` to `end` up by `by`. What the gap holds stays.
pub fn open_gap(s: &mut [u8], at: usize, end: usize, by: usize)
    ensures { s.new ≡ opened at end by s.old }
{
    if at <= end && fits(s, end, by) {
        for i in (at..end).rev() {
            s[i + by] = s[i];
        }
    }
}

// Moves the bytes from `at + by` to `end + by` down by `by`.
pub fn close_gap(s: &mut [u8], at: usize, end: usize, by: usize)
    ensures { s.new ≡ closed at end by s.old }
{
    if at <= end && fits(s, end, by) {
        for i in at..end {
            s[i] = s[i + by];
        }
    }
}
