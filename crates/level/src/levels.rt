// The levels of a text one after another, each as a part of it.
ghost use Rattle.std.specs.Prelude.{◌≡◌};
ghost use Rattle.std.specs.Iterator.{YieldsFirstRef, item_count};
ghost use Rattle.level.specs.Levels.{split};
ghost use Rattle.level.specs.Places.{levels_at};

use crate::part_at;

// Those that begin at a place or after it.
#[derive(Clone, Copy)]
pub struct Levels<'a> {
    pub text: &'a [u8],
    pub at: usize,
}

// All levels of a text.
pub fn levels_of(text: &[u8]) -> Levels<'_>
    ensures { levels_at result.text.now result.at ≡ split text.now }
{
    Levels { text, at: 0 }
}

impl<'a> Iterator for Levels<'a> {
    type Item = &'a [u8];

    ghost next_gives = { YieldsFirstRef (λ s. levels_at s.text.now s.at) };

    ghost remaining = { item_count (λ s. levels_at s.text.now s.at) };

    fn next(&mut self) -> Option<&'a [u8]> {
        if self.text.len() < self.at {
            return None;
        }
        let level = part_at(self.text, self.at);
        self.at += level.len() + 1;
        Some(level)
    }
}
