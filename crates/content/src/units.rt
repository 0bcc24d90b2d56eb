// The units of a row: bytes that are all the same, and the units of what a node holds. Numbers are read from a part of known
// length: then the compiler tests no place a second time.
ghost use Rattle.std.specs.Prelude.{◌≡◌, ◌+◌, ◌-◌, ◌*◌, ◌≤◌, ◌&&◌, eqb, length, drop};
ghost use Rattle.lent.specs.Parts.{part};
ghost use Rattle.lent.specs.Total.{read};
ghost use Rattle.content.specs.Contents.{every, upward, values_fine, records_fine, own_fine};

use region::Kind;

// Every byte from `from` up to `to` is `byte`.
#[tactic(auto, using(crate::proofs::UnitLaws::every_none))]
pub fn all_are(s: &[u8], byte: u8, from: usize, to: usize) -> bool
    requires { to ≤ length s.now }
    ensures { result ≡ every byte (part from (to - from) s.now) }
{
    to <= from || s[from..to].iter().all(|b| *b == byte)
}

// The value at `at` is less than the next one, if one is left.
#[tactic(auto, using(crate::proofs::UnitLaws::up_some))]
fn is_upward(s: &[u8], at: usize, left: usize) -> bool
    requires { at + 16 + left * 16 ≤ length s.now }
    ensures { result ≡ upward left (drop at s.now) }
{
    if left == 0 {
        return true;
    }
    let pair = &s[at..at + 32];
    lent::get32(pair, 0) < lent::get32(pair, 16)
}

// A value with all 0 behind it that is less than the next one.
#[tactic(auto, using(crate::proofs::UnitLaws::read_unit))]
fn value_is_sound(s: &[u8], at: usize, left: usize) -> bool
    requires { at + 16 + left * 16 ≤ length s.now }
    ensures { result ≡ (eqb (read 4 (at + 4) s.now) 0 && eqb (read 8 (at + 8) s.now) 0 && upward left (drop at s.now)) }
{
    let unit = &s[at..at + 16];
    lent::get32(unit, 4) == 0 && lent::get64(unit, 8) == 0 && is_upward(s, at, left)
}

// The units of values: behind each value all is 0, and they ascend. The place goes up by 16 while what is left goes down by 1,
// so the range counts one of them, and the place is a variable: told from what is left it would be no plainer.
#[tactic(auto, using(crate::proofs::UnitLaws::values))]
fn values_are_sound(s: &[u8], at: usize, own: usize) -> bool
    requires { at + own * 16 ≤ length s.now }
    ensures { result ≡ values_fine own (drop at s.now) }
{
    let mut p = at;
    for left in (0..own).rev() {
        if !value_is_sound(s, p, left) {
            return false;
        }
        p += 16;
    }
    true
}

// The units of records: at most one, with the marker 1, or with the marker 0 and no moment.
#[tactic(auto, using(crate::proofs::UnitLaws::records))]
fn records_are_sound(s: &[u8], at: usize, own: usize) -> bool
    requires { at + own * 16 ≤ length s.now }
    ensures { result ≡ records_fine own (drop at s.now) }
{
    match own {
        0 => true,
        1 => {
            let unit = &s[at..at + 16];
            match lent::get32(unit, 4) {
                0x1000000 => true,
                0 => lent::get64(unit, 8) == 0,
                _ => false,
            }
        }
        _ => false,
    }
}

pub fn own_is_sound(s: &[u8], kind: Kind, at: usize, own: usize) -> bool
    requires { at + own * 16 ≤ length s.now }
    ensures { result ≡ own_fine kind own (drop at s.now) }
{
    match kind {
        Kind::Subscriptions => values_are_sound(s, at, own),
        Kind::Retained => records_are_sound(s, at, own),
    }
}
