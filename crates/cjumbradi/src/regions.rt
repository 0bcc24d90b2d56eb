// The calls on regions of either kind: the bytes that one needs, and opening it.
ghost use Rattle.std.specs.Prelude.{◌≡◌};
ghost use Rattle.refusal.specs.Refusals.{◌at◌};
ghost use Rattle.topic.specs.Answers.{checked};
ghost use Rattle.region.specs.declared.Kind.TheVariants.{Subscriptions, Retained};
ghost use Rattle.region.specs.Opening.{room_of, needed_of, open_rules, opened_as};
ghost use Rattle.cjumbradi.specs.Calls.{of_checked};
ghost use Rattle.cjumbradi.specs.Regions.{room_for, of_size};

use crate::telling::{tell_changed, tell_checked};
use region::{Capacities, Cells, Kind, Nodes, Pairs};

fn capacities(nodes: u64, pairs: u64, cells: u64) -> Capacities
    ensures { room_of result ≡ room_for nodes pairs cells }
{
    Capacities {
        nodes: Nodes(nodes),
        pairs: Pairs(pairs),
        cells: Cells(cells),
    }
}

// Both kinds need the same.
pub fn cjumbradi_needed(nodes: u64, pairs: u64, cells: u64, bytes: &mut u64) -> u64
    ensures { (result at bytes.new) ≡ of_size (needed_of (room_for nodes pairs cells)) }
{
    tell_changed(
        region::needed(Kind::Subscriptions, capacities(nodes, pairs, cells)),
        bytes,
    )
}

pub fn cjumbradi_open_subscriptions(
    region: &mut [u8],
    nodes: u64,
    pairs: u64,
    cells: u64,
    place: &mut u64,
) -> u64
    ensures place_value { (result at place.new) ≡ of_checked (checked (open_rules (room_for nodes pairs cells) region.old)) }
    ensures region_after { region.new ≡ opened_as (checked (open_rules (room_for nodes pairs cells) region.old)) Subscriptions (room_for nodes pairs cells) region.old }
{
    let opened = region::open(region, Kind::Subscriptions, capacities(nodes, pairs, cells));
    tell_checked(opened, place)
}

pub fn cjumbradi_open_retained(
    region: &mut [u8],
    nodes: u64,
    pairs: u64,
    cells: u64,
    place: &mut u64,
) -> u64
    ensures place_value { (result at place.new) ≡ of_checked (checked (open_rules (room_for nodes pairs cells) region.old)) }
    ensures region_after { region.new ≡ opened_as (checked (open_rules (room_for nodes pairs cells) region.old)) Retained (room_for nodes pairs cells) region.old }
{
    let opened = region::open(region, Kind::Retained, capacities(nodes, pairs, cells));
    tell_checked(opened, place)
}
