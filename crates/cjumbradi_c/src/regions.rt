// The calls on regions of either kind, for C.
ghost use Rattle.std.specs.Prelude.{◌≡◌};
ghost use Rattle.refusal.specs.Refusals.{◌at◌};
ghost use Rattle.topic.specs.Answers.{checked};
ghost use Rattle.region.specs.declared.Kind.TheVariants.{Subscriptions, Retained};
ghost use Rattle.region.specs.Opening.{needed_of, open_rules, opened_as};
ghost use Rattle.cjumbradi.specs.Calls.{of_checked};
ghost use Rattle.cjumbradi.specs.Regions.{room_for, of_size};

#[unsafe(no_mangle)]
pub extern "C" fn cjumbradi_needed(nodes: u64, pairs: u64, cells: u64, bytes: &mut u64) -> u64
    ensures { (result at bytes.new) ≡ of_size (needed_of (room_for nodes pairs cells)) }
{
    cjumbradi::cjumbradi_needed(nodes, pairs, cells, bytes)
}

#[unsafe(no_mangle)]
pub extern "C" fn cjumbradi_open_subscriptions(
    region: &mut [u8],
    nodes: u64,
    pairs: u64,
    cells: u64,
    place: &mut u64,
) -> u64
    ensures place_value { (result at place.new) ≡ of_checked (checked (open_rules (room_for nodes pairs cells) region.old)) }
    ensures region_after { region.new ≡ opened_as (checked (open_rules (room_for nodes pairs cells) region.old)) Subscriptions (room_for nodes pairs cells) region.old }
{
    cjumbradi::cjumbradi_open_subscriptions(region, nodes, pairs, cells, place)
}

#[unsafe(no_mangle)]
pub extern "C" fn cjumbradi_open_retained(
    region: &mut [u8],
    nodes: u64,
    pairs: u64,
    cells: u64,
    place: &mut u64,
) -> u64
    ensures place_value { (result at place.new) ≡ of_checked (checked (open_rules (room_for nodes pairs cells) region.old)) }
    ensures region_after { region.new ≡ opened_as (checked (open_rules (room_for nodes pairs cells) region.old)) Retained (room_for nodes pairs cells) region.old }
{
    cjumbradi::cjumbradi_open_retained(region, nodes, pairs, cells, place)
}
