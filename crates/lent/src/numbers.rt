// Numbers of 2, 4 and 8 bytes, the high byte first.
ghost use Rattle.std.specs.Prelude.{◌≡◌, ◌^◌, ◌<◌, ◌≤◌};
ghost use Rattle.lent.specs.Numbers.{bytes};
ghost use Rattle.lent.specs.Total.{read, write};

use crate::moves::fits;

// The number of N bytes: they are put behind zeros in an array of 8, of which the compiler makes one load.
fn get<const N: usize>(s: &[u8], at: usize) -> u64
    requires { N ≤ 8 }
    ensures { (result ≡ read N at s.now) × (result < 256 ^ N) }
{
    if !fits(s, at, N) {
        return 0;
    }
    let mut number = [0; 8];
    number[8 - N..].copy_from_slice(&s[at..at + N]);
    u64::from_be_bytes(number)
}

// The N low bytes of a number.
#[tactic(auto, using(crate::proofs::Digits::low_bytes, crate::proofs::Anywhere::writes))]
fn put<const N: usize>(s: &mut [u8], at: usize, n: u64)
    requires { N ≤ 8 }
    ensures { s.new ≡ write at (bytes N n) s.old }
{
    if fits(s, at, N) {
        s[at..at + N].copy_from_slice(&n.to_be_bytes()[8 - N..]);
    }
}

pub fn get16(s: &[u8], at: usize) -> u64
    ensures { (result ≡ read 2 at s.now) × (result < 65536) }
{
    get::<2>(s, at)
}

pub fn get32(s: &[u8], at: usize) -> u64
    ensures { (result ≡ read 4 at s.now) × (result < 4294967296) }
{
    get::<4>(s, at)
}

pub fn get64(s: &[u8], at: usize) -> u64
    ensures { result ≡ read 8 at s.now }
{
    get::<8>(s, at)
}

pub fn put16(s: &mut [u8], at: usize, n: u64)
    ensures { s.new ≡ write at (bytes 2 n) s.old }
{
    put::<2>(s, at, n);
}

pub fn put32(s: &mut [u8], at: usize, n: u64)
    ensures { s.new ≡ write at (bytes 4 n) s.old }
{
    put::<4>(s, at, n);
}

pub fn put64(s: &mut [u8], at: usize, n: u64)
    ensures { s.new ≡ write at (bytes 8 n) s.old }
{
    put::<8>(s, at, n);
}
