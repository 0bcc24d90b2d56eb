// The three validity tests: a name, a filter, and a filter as it stands in a SUBSCRIBE.
ghost use Rattle.std.specs.Prelude.{◌≡◌};
ghost use Rattle.topic.specs.Rules.{text_rules, name_rules, filter_rules, shared_rules, subscription_rules};
ghost use Rattle.topic.specs.Answers.{checked};

use crate::faults::check_levels;
use crate::prefixes::is_shared_subscription;
use refusal::Refusal;

// The longest text that MQTT's two bytes of length can tell.
const LONGEST: usize = 65535;

// What names and filters share: refusals 1 to 4.
fn check_text(text: &[u8]) -> Result<(), Refusal>
    ensures { result ≡ checked (text_rules text.now) }
{
    if text.len() == 0 {
        return Err(Refusal::Empty);
    }
    if LONGEST < text.len() {
        return Err(Refusal::TooLong);
    }
    if !utf8::is_utf8(text) {
        return Err(Refusal::NotUtf8);
    }
    if level::has_byte(text, 0) {
        return Err(Refusal::HasNul);
    }
    Ok(())
}

// A topic name, as a PUBLISH has it.
pub fn is_valid_topic_name(text: &[u8]) -> Result<(), Refusal>
    ensures { result ≡ checked (name_rules text.now) }
{
    check_text(text)?;
    if level::has_wildcard(text) {
        return Err(Refusal::HasWildcard);
    }
    Ok(())
}

// A topic filter. `$share/` has no meaning of its own here.
pub fn is_valid_topic_filter(text: &[u8]) -> Result<(), Refusal>
    ensures { result ≡ checked (filter_rules text.now) }
{
    check_text(text)?;
    check_levels(text)
}

// What follows `$share/`: a group, a '/', and a filter, whose levels are counted by themselves.
fn check_shared(rest: &[u8]) -> Result<(), Refusal>
    ensures { result ≡ checked (shared_rules rest.now) }
{
    let group = level::part_at(rest, 0);
    let inner = level::text_from(rest, group.len() + 1);
    if inner.len() == 0 {
        return Err(Refusal::NoInner);
    }
    check_levels(inner)?;
    if level::has_wildcard(group) {
        return Err(Refusal::BadGroup);
    }
    Ok(())
}

// A filter to put in a SUBSCRIBE: plain, or behind `$share/` and a group.
pub fn is_valid_subscription_filter(text: &[u8]) -> Result<(), Refusal>
    ensures { result ≡ checked (subscription_rules text.now) }
{
    check_text(text)?;
    if is_shared_subscription(text) {
        return check_shared(level::text_from(text, 7));
    }
    check_levels(text)
}
