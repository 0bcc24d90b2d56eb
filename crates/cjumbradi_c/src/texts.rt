// The calls on texts, for C.
ghost use Rattle.std.specs.Prelude.{◌≡◌, length};
ghost use Rattle.refusal.specs.Refusals.{◌at◌};
ghost use Rattle.topic.specs.Rules.{name_rules, filter_rules, subscription_rules, starts, ascii};
ghost use Rattle.topic.specs.Answers.{checked, parsed, kind_at, part_at, place_at, matched};
ghost use Rattle.cjumbradi.specs.Calls.{of_checked, of_parsed, of_matched, of_bool, of_kind};

#[unsafe(no_mangle)]
pub extern "C" fn cjumbradi_parse(text: &[u8], value: &mut u64) -> u64
    ensures { (result at value.new) ≡ of_parsed (parsed text.now) }
{
    cjumbradi::cjumbradi_parse(text, value)
}

#[unsafe(no_mangle)]
pub extern "C" fn cjumbradi_level_kind(text: &[u8], k: u64, kind: &mut u64) -> u64
    ensures { (result at kind.new) ≡ of_kind (kind_at text.now k) }
{
    cjumbradi::cjumbradi_level_kind(text, k, kind)
}

#[unsafe(no_mangle)]
pub extern "C" fn cjumbradi_level_part(text: &[u8], k: u64, start: &mut u64, len: &mut u64) -> u64
    ensures start_value { (result at start.new) ≡ (0 at place_at text.now k) }
    ensures len_after { len.new ≡ length (part_at text.now k) }
{
    cjumbradi::cjumbradi_level_part(text, k, start, len)
}

#[unsafe(no_mangle)]
pub extern "C" fn cjumbradi_is_valid_topic_name(text: &[u8], place: &mut u64) -> u64
    ensures { (result at place.new) ≡ of_checked (checked (name_rules text.now)) }
{
    cjumbradi::cjumbradi_is_valid_topic_name(text, place)
}

#[unsafe(no_mangle)]
pub extern "C" fn cjumbradi_is_valid_topic_filter(text: &[u8], place: &mut u64) -> u64
    ensures { (result at place.new) ≡ of_checked (checked (filter_rules text.now)) }
{
    cjumbradi::cjumbradi_is_valid_topic_filter(text, place)
}

#[unsafe(no_mangle)]
pub extern "C" fn cjumbradi_is_valid_subscription_filter(text: &[u8], place: &mut u64) -> u64
    ensures { (result at place.new) ≡ of_checked (checked (subscription_rules text.now)) }
{
    cjumbradi::cjumbradi_is_valid_subscription_filter(text, place)
}

#[unsafe(no_mangle)]
pub extern "C" fn cjumbradi_is_shared_subscription(text: &[u8], yes: &mut u64) -> u64
    ensures { (result at yes.new) ≡ of_bool (starts (ascii "$share/") text.now) }
{
    cjumbradi::cjumbradi_is_shared_subscription(text, yes)
}

#[unsafe(no_mangle)]
pub extern "C" fn cjumbradi_is_limit_subscription(text: &[u8], yes: &mut u64) -> u64
    ensures { (result at yes.new) ≡ of_bool (starts (ascii "$limit/") text.now) }
{
    cjumbradi::cjumbradi_is_limit_subscription(text, yes)
}

#[unsafe(no_mangle)]
pub extern "C" fn cjumbradi_is_exclusive_subscription(text: &[u8], yes: &mut u64) -> u64
    ensures { (result at yes.new) ≡ of_bool (starts (ascii "$exclusive/") text.now) }
{
    cjumbradi::cjumbradi_is_exclusive_subscription(text, yes)
}

#[unsafe(no_mangle)]
pub extern "C" fn cjumbradi_matches(filter: &[u8], name: &[u8], value: &mut u64) -> u64
    ensures { (result at value.new) ≡ of_matched (matched filter.now name.now) }
{
    cjumbradi::cjumbradi_matches(filter, name, value)
}
