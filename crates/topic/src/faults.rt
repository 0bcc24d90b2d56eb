// The faults of a text's levels: refusals 6 and 7.
ghost use Rattle.std.specs.Prelude.{◌≡◌};
ghost use Rattle.topic.specs.Rules.{level_rules};
ghost use Rattle.topic.specs.Answers.{checked};

use refusal::Refusal;

// All levels are tested first, then the place of the first '#'.
pub fn check_levels(text: &[u8]) -> Result<(), Refusal>
    ensures { result ≡ checked (level_rules text.now) }
{
    let mut hash = None;
    let mut k = 0;
    for level in level::levels_of(text) {
        if level::is_bad(level) {
            return Err(Refusal::BadLevel { place: k });
        }
        if hash.is_none() && level::is_only(level, b'#') {
            hash = Some(k);
        }
        k += 1;
    }
    match hash {
        Some(place) if place + 1 < k => Err(Refusal::HashNotLast { place }),
        _ => Ok(()),
    }
}
