// The levels of a filter along a walk.
ghost use Rattle.std.specs.Prelude.{◌≡◌, [], ◌≤◌, length};
ghost use Rattle.level.specs.Places.{levels_at};
ghost use Rattle.topic.specs.Match.{takes};
ghost use Rattle.lookup.specs.Steps.{StepOf};

use crate::Step;

// The filter has nothing left at a place but what its parent takes: it ends there, or has a '#' there.
pub fn ends_at(filter: &[u8], from: usize) -> bool
    ensures { result ≡ takes (levels_at filter.now from) [] }
{
    if filter.len() < from {
        return true;
    }
    level::is_only(level::part_at(filter, from), b'#')
}

// The level that begins at a place. Below a '#' the '#' stays.
pub fn next_step(filter: &[u8], from: usize) -> Step
    requires { from ≤ length filter.now }
    ensures { StepOf filter.now from result }
{
    let stop = walk::level_stop(filter, from);
    let level = &filter[from..stop];
    if level::is_only(level, b'#') {
        return Step {
            stop,
            next: from,
            wild: true,
        };
    }
    Step {
        stop,
        next: stop + 1,
        wild: level::is_only(level, b'+'),
    }
}
