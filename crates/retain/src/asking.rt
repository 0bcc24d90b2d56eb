// The calls that ask a store for names: the region is tested, then the filter, then the walk is made.
//
// One clock is given for a call, so that one call sees one time. A caller that knows the region to be a store may leave out the test
// of it: on other bytes such a call ends and writes only in the buffer, but its answer is open.
ghost use Rattle.std.specs.Prelude.{◌≡◌, Ok};
ghost use Rattle.topic.specs.Rules.{filter_rules};
ghost use Rattle.topic.specs.Answers.{checked};
ghost use Rattle.region.specs.Shapes.{UnitsOf};
ghost use Rattle.retain.specs.Lookups.{Looks, LooksKnown};

use edit::Listed;
use refusal::Refusal;
use region::{Kind, Shape};

// All records of a lookup are given: a store has fewer.
const ALL: u64 = u64::MAX;

// The lookup into a buffer, in the units of a store and for a filter that was accepted. It is measured before it is written.
fn look_in(
    s: &[u8],
    base: usize,
    n: usize,
    room: usize,
    filter: &[u8],
    clock: u64,
    out: &mut [u8],
) -> Result<Listed, Refusal>
    requires { UnitsOf s.now base n room × (checked (filter_rules filter.now) ≡ Ok tt) }
    ensures { LooksKnown s.now filter.now clock out.old out.new result }
{
    let found = lookup::measure(s, base, n, filter, clock, 0, ALL);
    let bytes = found.bytes;
    if out.len() < bytes {
        return Err(Refusal::ShortRoom { needed: bytes });
    }
    pages::write_all(s, base, n, filter, clock, 0, ALL, out);
    Ok(Listed {
        bytes,
        records: found.records,
    })
}

// For a filter that was accepted.
fn look_accepted(s: &[u8], filter: &[u8], clock: u64, out: &mut [u8]) -> Result<Listed, Refusal>
    requires { checked (filter_rules filter.now) ≡ Ok tt }
    ensures { LooksKnown s.now filter.now clock out.old out.new result }
{
    let Some(Shape { base, used, room }) = region::shape_of(s) else {
        return Err(Refusal::NotAStore);
    };
    look_in(s, base, used, room, filter, clock, out)
}

// The names that a filter takes and that have not expired by now, as records in the order of the names.
pub fn get(region: &[u8], filter: &[u8], clock: u64, out: &mut [u8]) -> Result<Listed, Refusal>
    ensures { Looks region.now filter.now clock out.old out.new result }
{
    if !audit::is_store(region, Kind::Retained) {
        return Err(Refusal::NotAStore);
    }
    get_known(region, filter, clock, out)
}

// The same without the test of the region.
pub fn get_known(
    region: &[u8],
    filter: &[u8],
    clock: u64,
    out: &mut [u8],
) -> Result<Listed, Refusal>
    ensures { LooksKnown region.now filter.now clock out.old out.new result }
{
    topic::is_valid_topic_filter(filter)?;
    look_accepted(region, filter, clock, out)
}
