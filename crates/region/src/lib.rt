// The region of a store: its header, the bytes that it needs, and opening it. specs/Layout.antt has the drawing.
#![tactic(auto)]

mod counts;
mod fit;
mod header;

ghost use Rattle.std.specs.Prelude.{◌≡◌, ◌/◌, ◌%◌, ◌≤◌, true};
ghost use Rattle.held.specs.Room.{up_to, in_range};
ghost use Rattle.region.specs.Layout.{needed_bytes, header_bytes};
ghost use Rattle.topic.specs.Answers.{checked};
ghost use Rattle.region.specs.Opening.{kind_byte, room_of, needed_of, open_rules, nothing, opened_as};

pub use counts::{cells_size, nodes_size, values_size};
pub use fit::{cells_of, room_for};
pub use header::{capacities_of, shape_of};
use refusal::Refusal;

// The two kinds of store.
#[derive(Clone, Copy)]
pub enum Kind {
    Subscriptions,
    Retained,
}

// Counts of different things are different types: a count of nodes is never compared with a count of pairs.
#[derive(Clone, Copy)]
pub struct Nodes(pub u64);

#[derive(Clone, Copy)]
pub struct Pairs(pub u64);

#[derive(Clone, Copy)]
pub struct Cells(pub u64);

// What a store may hold at most.
#[derive(Clone, Copy)]
pub struct Capacities {
    pub nodes: Nodes,
    pub pairs: Pairs,
    pub cells: Cells,
}

// The units of a region: where they begin, how many are in use, and how many there is room for.
#[derive(Clone, Copy)]
pub struct Shape {
    pub base: usize,
    pub used: usize,
    pub room: usize,
}

// 1 to `most`.
fn is_up_to(most: u64, n: u64) -> bool
    ensures { result ≡ up_to most n }
{
    0 < n && n <= most
}

fn in_range(c: Capacities) -> bool
    ensures { result ≡ in_range (room_of c) }
{
    is_up_to(4096, c.nodes.0) && is_up_to(8192, c.pairs.0) && is_up_to(8192, c.cells.0)
}

// The bytes that a region for these capacities needs. Both kinds need the same.
fn bytes_for(c: Capacities) -> u64
    requires { in_range (room_of c) ≡ true }
    ensures { (result ≡ needed_bytes (room_of c)) × (result ≤ 348224) }
{
    64 + 17 * c.nodes.0 + 17 * c.pairs.0 + 17 * c.cells.0
}

pub fn needed(_kind: Kind, c: Capacities) -> Result<u64, Refusal>
    ensures { result ≡ needed_of (room_of c) }
{
    if !in_range(c) {
        return Err(Refusal::BadSize);
    }
    Ok(bytes_for(c))
}

// The byte that tells a kind of store.
fn kind_byte(kind: Kind) -> u8
    ensures { result ≡ kind_byte kind }
{
    match kind {
        Kind::Subscriptions => 1,
        Kind::Retained => 2,
    }
}

fn high(n: u64) -> u8
    ensures { result ≡ n / 256 % 256 }
{
    (n / 256 % 256) as u8
}

fn low(n: u64) -> u8
    ensures { result ≡ n % 256 }
{
    (n % 256) as u8
}

// The header of a store that holds nothing.
fn empty_header(kind: Kind, c: Capacities) -> [u8; 18]
    ensures { result ≡ header_bytes (kind_byte kind) (room_of c) nothing }
{
    [
        0x43,
        0x4A,
        kind_byte(kind),
        1,
        high(c.nodes.0),
        low(c.nodes.0),
        high(c.pairs.0),
        low(c.pairs.0),
        high(c.cells.0),
        low(c.cells.0),
        0, // in use: nodes
        0,
        0, // in use: pairs
        0,
        0, // in use: cells
        0,
        0, // in use: units
        0,
    ]
}

// Makes a region an empty store. Only the header is written: what stands behind it is read no further than the header says.
pub fn open(region: &mut [u8], kind: Kind, c: Capacities) -> Result<(), Refusal>
    ensures value { result ≡ checked (open_rules (room_of c) region.old) }
    ensures region_after { region.new ≡ opened_as result kind (room_of c) region.old }
{
    if !in_range(c) || (region.len() as u64) < bytes_for(c) {
        return Err(Refusal::BadSize);
    }
    lent::copy_in(region, 0, &empty_header(kind, c));
    Ok(())
}
