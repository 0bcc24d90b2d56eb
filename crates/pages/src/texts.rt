// The text of a name, from the rows of its path.
ghost use Rattle.std.specs.Prelude.{◌≡◌, ◌∷◌, ◌+◌, ◌-◌, ◌≤◌, length};
ghost use Rattle.lent.specs.Numbers.{bytes};
ghost use Rattle.lent.specs.Parts.{patch};
ghost use Rattle.level.specs.Levels.{width};
ghost use Rattle.listing.specs.Trails.{slashed};
ghost use Rattle.listing.specs.Written.{WroteLevel};
ghost use Rattle.pages.specs.Paths.{path_at, PathIn};

use crate::Ask;

// A level, and a '/'.
fn write_level(out: &mut [u8], at: usize, level: &[u8]) -> usize
    requires { at + length level.now + 1 ≤ length out.old }
    ensures { WroteLevel out.old out.new at level.now result }
{
    lent::copy_in(out, at, level);
    let end = at + level.len();
    out[end] = b'/';
    end + 1
}

// The levels of a path at a depth, each with a '/' after it.
fn write_text(out: &mut [u8], at: usize, path: &[usize; 128], s: &[u8], ask: Ask, depth: usize)
    requires { PathIn ask.base s.now ask.n path.now depth × (at + width (path_at ask.base s.now ask.n path.now depth) ≤ length out.old) }
    ensures { out.new ≡ patch at (slashed (path_at ask.base s.now ask.n path.now depth)) out.old }
{
    let base = ask.base;
    let n = ask.n;
    let mut next = at;
    for j in 0..depth {
        next = write_level(out, next, forest::level_at(s, base, path[j], n));
    }
}

// A record's mark, the length of its name, and the name with a '/' behind it.
pub fn write_name(
    out: &mut [u8],
    at: usize,
    path: &[usize; 128],
    s: &[u8],
    ask: Ask,
    depth: usize,
    text: usize,
)
    requires { PathIn ask.base s.now ask.n path.now depth × (at + 4 + width (path_at ask.base s.now ask.n path.now depth) ≤ length out.old) }
    ensures { out.new ≡ patch (at + 4) (slashed (path_at ask.base s.now ask.n path.now depth)) (patch at (82 ∷ 86 ∷ bytes 2 text) out.old) }
{
    lent::copy_in(out, at, b"RV");
    lent::put16(out, at + 2, text as u64);
    write_text(out, at + 4, path, s, ask, depth);
}
