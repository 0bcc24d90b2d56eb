// The calls that ask a store about a name: the region is tested, then the name, then the walk is made.
//
// A caller that knows the region to be a store may leave out the test of it: on other bytes such a call ends and writes only in
// the buffer, but its answer is open.
ghost use Rattle.std.specs.Prelude.{◌≡◌, ◌≤◌, length, Ok};
ghost use Rattle.topic.specs.Rules.{name_rules};
ghost use Rattle.topic.specs.Answers.{checked};
ghost use Rattle.region.specs.Shapes.{UnitsOf};
ghost use Rattle.trie.specs.Listings.{Asks, AsksKnown, Lists, ListsKnown};

use edit::Listed;
use refusal::Refusal;
use region::{Kind, Shape};
use walk::Measured;

// In the units of a store, for a name that was accepted.
fn is_match_in(s: &[u8], base: usize, n: usize, room: usize, name: &[u8]) -> Result<bool, Refusal>
    requires { UnitsOf s.now base n room × (checked (name_rules name.now) ≡ Ok tt) }
    ensures { AsksKnown s.now name.now result }
{
    Ok(walk::has_match(s, base, n, name))
}

// For a name that was accepted.
fn is_match_accepted(s: &[u8], name: &[u8]) -> Result<bool, Refusal>
    requires { checked (name_rules name.now) ≡ Ok tt }
    ensures { AsksKnown s.now name.now result }
{
    let Some(Shape { base, used, room }) = region::shape_of(s) else {
        return Err(Refusal::NotAStore);
    };
    is_match_in(s, base, used, room, name)
}

// Whether some held filter matches a name.
pub fn is_match(region: &[u8], name: &[u8]) -> Result<bool, Refusal>
    ensures { Asks region.now name.now result }
{
    if !audit::is_store(region, Kind::Subscriptions) {
        return Err(Refusal::NotAStore);
    }
    is_match_known(region, name)
}

// The same without the test of the region.
pub fn is_match_known(region: &[u8], name: &[u8]) -> Result<bool, Refusal>
    ensures { AsksKnown region.now name.now result }
{
    topic::is_valid_topic_name(name)?;
    is_match_accepted(region, name)
}

// The listing into a buffer, in the units of a store and for a name that was accepted. It is measured before it is written; where
// nothing matches, there is nothing to write.
fn list_measured(
    s: &[u8],
    base: usize,
    n: usize,
    room: usize,
    name: &[u8],
    out: &mut [u8],
) -> Result<Listed, Refusal>
    requires { UnitsOf s.now base n room × (checked (name_rules name.now) ≡ Ok tt) × (length name.now ≤ 65535) }
    ensures { ListsKnown s.now name.now out.old out.new result }
{
    let Measured { bytes, records } = walk::measure(s, base, n, name);
    if bytes == 0 {
        return Ok(Listed { bytes, records });
    }
    if out.len() < bytes {
        return Err(Refusal::ShortRoom { needed: bytes });
    }
    let written = listing::write_all(s, base, n, name, out);
    Ok(Listed {
        bytes: written.bytes,
        records: written.records,
    })
}

// The same. Where the buffer has room for every listing that so many units can hold for the name, it is not measured: that would
// be a second walk.
fn list_in(
    s: &[u8],
    base: usize,
    n: usize,
    room: usize,
    name: &[u8],
    out: &mut [u8],
) -> Result<Listed, Refusal>
    requires { UnitsOf s.now base n room × (checked (name_rules name.now) ≡ Ok tt) × (length name.now ≤ 65535) }
    ensures { ListsKnown s.now name.now out.old out.new result }
{
    if 65535 < n {
        return list_measured(s, base, n, room, name, out);
    }
    let most = walk::most_bytes(n, name, out.len());
    if out.len() < most {
        return list_measured(s, base, n, room, name, out);
    }
    let all = listing::write_all(s, base, n, name, out);
    Ok(Listed {
        bytes: all.bytes,
        records: all.records,
    })
}

// For a name that was accepted.
fn list_accepted(s: &[u8], name: &[u8], out: &mut [u8]) -> Result<Listed, Refusal>
    requires { (checked (name_rules name.now) ≡ Ok tt) × (length name.now ≤ 65535) }
    ensures { ListsKnown s.now name.now out.old out.new result }
{
    let Some(Shape { base, used, room }) = region::shape_of(s) else {
        return Err(Refusal::NotAStore);
    };
    list_in(s, base, used, room, name, out)
}

// The filters that match a name, each once with its values, as records in the order of the listing.
pub fn matches(region: &[u8], name: &[u8], out: &mut [u8]) -> Result<Listed, Refusal>
    ensures { Lists region.now name.now out.old out.new result }
{
    if !audit::is_store(region, Kind::Subscriptions) {
        return Err(Refusal::NotAStore);
    }
    matches_known(region, name, out)
}

// The same without the test of the region.
pub fn matches_known(region: &[u8], name: &[u8], out: &mut [u8]) -> Result<Listed, Refusal>
    ensures { ListsKnown region.now name.now out.old out.new result }
{
    topic::is_valid_topic_name(name)?;
    list_accepted(region, name, out)
}
