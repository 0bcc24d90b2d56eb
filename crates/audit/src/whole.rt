// A whole region: its header, then its rows, which must have all that the header promises.
ghost use Rattle.std.specs.Prelude.{◌≡◌, ◌≤◌, ◌<◌, length};
ghost use Rattle.region.specs.Layout.{unit_room};
ghost use Rattle.region.specs.Store.{room_at};
ghost use Rattle.audit.specs.Whole.{mark_of, left_at, none, all_taken, used_fine, header_fine, store_fine};
ghost use Rattle.audit.specs.Decides.{StoreOf, Decides};

use crate::Left;
use crate::rows::audit_rows;
use region::Kind;

// A header's bytes.
const HEADER: usize = 64;
// The bytes of the longest text with the '/' after each of its levels.
const WIDEST: usize = 65536;

// The nodes, pairs and cells that a header says are in use.
fn promised_at(s: &[u8]) -> Left
    requires { 64 ≤ length s.now }
    ensures { result ≡ left_at s.now }
{
    Left {
        nodes: lent::get16(s, 10) as usize,
        pairs: lent::get16(s, 12) as usize,
        cells: lent::get16(s, 14) as usize,
    }
}

// The units that a region has room for.
fn unit_room_at(s: &[u8]) -> u64
    requires { 64 ≤ length s.now }
    ensures { (result ≡ unit_room (room_at s.now)) × (result < 196608) }
{
    lent::get16(s, 4) + lent::get16(s, 6) + lent::get16(s, 8)
}

// What is in use is no more than the capacities.
fn used_is_sound(s: &[u8]) -> bool
    requires { 64 ≤ length s.now }
    ensures { result ≡ used_fine s.now }
{
    if lent::get16(s, 4) < lent::get16(s, 10) {
        return false;
    }
    if lent::get16(s, 6) < lent::get16(s, 12) {
        return false;
    }
    if lent::get16(s, 8) < lent::get16(s, 14) {
        return false;
    }
    lent::get16(s, 16) <= unit_room_at(s)
}

// The mark, the kind and the shape: a header's first four bytes, as a number.
fn mark_of(kind: Kind) -> u64
    ensures { result ≡ mark_of kind }
{
    match kind {
        Kind::Subscriptions => 0x434A0101,
        Kind::Retained => 0x434A0201,
    }
}

fn header_is_sound(s: &[u8], kind: Kind) -> bool
    requires { 64 ≤ length s.now }
    ensures { result ≡ header_fine kind s.now }
{
    let Ok(needed) = region::needed(kind, region::capacities_of(s)) else {
        return false;
    };
    if (s.len() as u64) < needed {
        return false;
    }
    if lent::get32(s, 0) != mark_of(kind) {
        return false;
    }
    used_is_sound(s)
}

fn is_none(left: Left) -> bool
    ensures { result ≡ none left }
{
    if left.nodes == 0 {
        if left.pairs == 0 {
            return left.cells == 0;
        }
    }
    false
}

// The rows are sound, and nothing of what was promised is left.
fn is_all_taken(found: Option<Left>) -> bool
    ensures { result ≡ all_taken found }
{
    match found {
        Some(left) => is_none(left),
        None => false,
    }
}

fn is_sound(s: &[u8], kind: Kind) -> bool
    ensures { result ≡ store_fine kind s.now }
{
    if s.len() < HEADER {
        return false;
    }
    if !header_is_sound(s, kind) {
        return false;
    }
    let base = HEADER + unit_room_at(s) as usize;
    let units = lent::get16(s, 16) as usize;
    let found = audit_rows(s, base, kind, 1, WIDEST, 0, units, promised_at(s));
    is_all_taken(found)
}

// Whether a region is a store of the kind. It reads each byte in use once or twice, and no others.
pub fn is_store(region: &[u8], kind: Kind) -> bool
    ensures { Decides result (StoreOf kind region.now) }
{
    is_sound(region, kind)
}
