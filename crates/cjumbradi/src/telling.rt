// How an answer is told to C: a number is returned, and a value is handed back.
ghost use Rattle.std.specs.Prelude.{◌≡◌, cond};
ghost use Rattle.refusal.specs.Refusals.{◌at◌, told};
ghost use Rattle.cjumbradi.specs.Calls.{of_checked, of_parsed, of_matched, of_bool, of_kind};
ghost use Rattle.trie.specs.Sizes.{nodes_told, values_told};
ghost use Rattle.cjumbradi.specs.Stores.{of_changed, of_listed, of_paged, of_outcome};

use edit::Listed;
use level::Kind;
use refusal::Refusal;
use region::{Nodes, Pairs};
use retain::Page;

// Nothing is refused, and this was found.
fn tell_found(found: u64, value: &mut u64) -> u64
    ensures { (result at value.new) ≡ (0 at found) }
{
    *value = found;
    0
}

fn tell_refusal(refusal: Refusal, place: &mut u64) -> u64
    ensures { (result at place.new) ≡ told refusal }
{
    *place = refusal::place(refusal);
    refusal::number(refusal)
}

pub fn tell_checked(checked: Result<(), Refusal>, place: &mut u64) -> u64
    ensures { (result at place.new) ≡ of_checked checked }
{
    match checked {
        Ok(()) => tell_found(0, place),
        Err(refusal) => tell_refusal(refusal, place),
    }
}

pub fn tell_parsed(parsed: Result<usize, Refusal>, value: &mut u64) -> u64
    ensures { (result at value.new) ≡ of_parsed parsed }
{
    match parsed {
        Ok(count) => tell_found(count as u64, value),
        Err(refusal) => tell_refusal(refusal, value),
    }
}

pub fn tell_matched(matched: Result<bool, Refusal>, value: &mut u64) -> u64
    ensures { (result at value.new) ≡ of_matched matched }
{
    match matched {
        Ok(yes) => tell_bool(yes, value),
        Err(refusal) => tell_refusal(refusal, value),
    }
}

pub fn tell_bool(answer: bool, yes: &mut u64) -> u64
    ensures { (result at yes.new) ≡ of_bool answer }
{
    tell_found(u64::from(answer), yes)
}

pub fn tell_kind(kind: Option<Kind>, value: &mut u64) -> u64
    ensures { (result at value.new) ≡ of_kind kind }
{
    match kind {
        None => tell_found(0, value),
        Some(Kind::Normal) => tell_found(1, value),
        Some(Kind::Metadata) => tell_found(2, value),
        Some(Kind::Blank) => tell_found(3, value),
        Some(Kind::SingleWildcard) => tell_found(4, value),
        Some(Kind::MultiWildcard) => tell_found(5, value),
    }
}

// What a change answers, or the bytes that a region needs.
pub fn tell_changed(changed: Result<u64, Refusal>, value: &mut u64) -> u64
    ensures { (result at value.new) ≡ of_changed changed }
{
    match changed {
        Ok(answer) => tell_found(answer, value),
        Err(refusal) => tell_refusal(refusal, value),
    }
}

// A listing or a lookup has two values: its bytes, or the place of the refusal, and its records.
pub fn tell_listed(listed: Result<Listed, Refusal>, value: &mut u64, count: &mut u64) -> u64
    ensures { (result at value.new, count.new) ≡ of_listed listed }
{
    match listed {
        Ok(listed) => {
            *count = listed.records as u64;
            tell_found(listed.bytes as u64, value)
        }
        Err(refusal) => {
            *count = 0;
            tell_refusal(refusal, value)
        }
    }
}

// A page has three: also whether more follows.
pub fn tell_paged(
    paged: Result<Page, Refusal>,
    value: &mut u64,
    count: &mut u64,
    follows: &mut u64,
) -> u64
    ensures { (result at value.new, count.new, follows.new) ≡ of_paged paged }
{
    match paged {
        Ok(page) => {
            *count = page.records as u64;
            *follows = u64::from(page.more);
            tell_found(page.bytes as u64, value)
        }
        Err(refusal) => {
            *count = 0;
            *follows = 0;
            tell_refusal(refusal, value)
        }
    }
}

pub fn tell_nodes(size: Result<Nodes, Refusal>, value: &mut u64) -> u64
    ensures { (result at value.new) ≡ of_outcome (nodes_told size) }
{
    match size {
        Ok(nodes) => tell_found(nodes.0, value),
        Err(refusal) => tell_refusal(refusal, value),
    }
}

// The pairs of a store: its values, or its names.
pub fn tell_pairs(size: Result<Pairs, Refusal>, value: &mut u64) -> u64
    ensures { (result at value.new) ≡ of_outcome (values_told size) }
{
    match size {
        Ok(pairs) => tell_found(pairs.0, value),
        Err(refusal) => tell_refusal(refusal, value),
    }
}
