// Whether one filter takes one name, by MQTT 4.7.
ghost use Rattle.std.specs.Prelude.{◌≡◌, ◌&&◌};
ghost use Rattle.level.specs.Levels.{split};
ghost use Rattle.topic.specs.Match.{level_takes, takes, lead_wild, lead_dollar};
ghost use Rattle.topic.specs.Answers.{matched};

use crate::validity::{is_valid_topic_filter, is_valid_topic_name};
use refusal::Refusal;

// A level of a filter takes a level of a name.
fn level_takes(filter: &[u8], name: &[u8]) -> bool
    ensures { result ≡ level_takes filter.now name.now }
{
    level::is_only(filter, b'+') || level::same_bytes(filter, name)
}

// The levels of a filter take those of a name, side by side.
fn levels_take(filter: &[u8], name: &[u8]) -> bool
    ensures { result ≡ takes (split filter.now) (split name.now) }
{
    let mut others = level::levels_of(name);
    for f in level::levels_of(filter) {
        if level::is_only(f, b'#') {
            return true;
        }
        let Some(n) = others.next() else {
            return false;
        };
        if !level_takes(f, n) {
            return false;
        }
    }
    others.next().is_none()
}

// The first level is '+' or '#'.
#[tactic(auto, using(crate::proofs::Turns::lead_laws))]
fn leads_wild(filter: &[u8]) -> bool
    ensures { result ≡ lead_wild (split filter.now) }
{
    let first = level::part_at(filter, 0);
    level::is_only(first, b'+') || level::is_only(first, b'#')
}

// A leading wildcard before a name whose first level begins with '$'.
#[tactic(auto, using(crate::proofs::Turns::lead_laws))]
fn is_barred(filter: &[u8], name: &[u8]) -> bool
    ensures { result ≡ (lead_wild (split filter.now) && lead_dollar (split name.now)) }
{
    leads_wild(filter) && level::is_metadata(level::part_at(name, 0))
}

// One filter and one name; the filter's fault before the name's.
pub fn matches(filter: &[u8], name: &[u8]) -> Result<bool, Refusal>
    ensures { result ≡ matched filter.now name.now }
{
    is_valid_topic_filter(filter)?;
    is_valid_topic_name(name)?;
    Ok(!is_barred(filter, name) && levels_take(filter, name))
}
