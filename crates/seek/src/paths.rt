// The nodes of the levels of a text.
ghost use Rattle.std.specs.Prelude.{◌+◌, ◌≤◌, length};
ghost use Rattle.forest.specs.Places.{unit_at};
ghost use Rattle.seek.specs.PathFound.{PathFound};

use crate::Path;

// From the top row, whose units go from 0 up to n, down as far as the levels of the text are there.
pub fn find_path(s: &[u8], base: usize, n: usize, text: &[u8]) -> Path
    requires { (unit_at base n ≤ length s.now) × (64 + n ≤ base) }
    ensures { PathFound base s.now n text.now result }
{
    let size = text.len();
    let mut nodes: [usize; 128] = [0; 128];
    let mut lo: usize = 0;
    let mut hi = n;
    let mut from: usize = 0;
    for depth in 0..128 {
        if size < from {
            return Path {
                nodes,
                depth,
                place: lo,
                from,
            };
        }
        let stop = level::level_end(text, from);
        match crate::find_child(s, base, lo, hi, depth + 1, &text[from..stop]) {
            Ok(child) => {
                nodes[depth] = child.node;
                lo = child.end;
                hi = child.past;
                from = stop + 1;
            }
            Err(place) => {
                return Path {
                    nodes,
                    depth,
                    place,
                    from,
                };
            }
        }
    }
    Path {
        nodes,
        depth: 128,
        place: lo,
        from,
    }
}
