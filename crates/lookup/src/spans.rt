// The siblings of a row that a filter's level may take.
ghost use Rattle.std.specs.Prelude.{◌≡◌, ◌&&◌, ◌+◌, ◌≤◌, ◌<◌, eqb, length};
ghost use Rattle.level.specs.Kinds.{dollar};
ghost use Rattle.level.specs.Places.{levels_at};
ghost use Rattle.forest.specs.Places.{unit_at, level_in};
ghost use Rattle.walk.specs.Nodes.{Below};
ghost use Rattle.lookup.specs.Steps.{StepOf};
ghost use Rattle.lookup.specs.Spans.{Spanned, AlongOf};

use crate::{Along, Span, Step, steps};

// Their units: the whole row for a wildcard; else those of the one sibling with the level, or none.
fn span_of(
    s: &[u8],
    base: usize,
    lo: usize,
    hi: usize,
    left: usize,
    filter: &[u8],
    from: usize,
    step: Step,
) -> Span
    requires { Below base s.now lo hi × (left ≤ 128) × (from ≤ length filter.now) × StepOf filter.now from step }
    ensures { Spanned base s.now left lo hi (levels_at filter.now from) result }
{
    if step.wild {
        return Span { lo, hi };
    }
    match seek::find_child(s, base, lo, hi, 129 - left, &filter[from..step.stop]) {
        Ok(child) => Span {
            lo: child.node,
            hi: child.past,
        },
        Err(_) => Span { lo, hi: lo },
    }
}

// Names with a leading '$' are barred: in the first row, under a wildcard.
fn bars(left: usize, wild: bool) -> bool
    ensures { result ≡ (eqb left 128 && wild) }
{
    left == 128 && wild
}

// How the siblings in the units from `lo` up to `hi` are walked, with the levels of the filter from a place on. Where it has ended
// none is.
pub fn along_row(
    s: &[u8],
    base: usize,
    lo: usize,
    hi: usize,
    left: usize,
    filter: &[u8],
    from: usize,
) -> Along
    requires { Below base s.now lo hi × (left ≤ 128) × (from ≤ length filter.now + 1) }
    ensures { AlongOf base s.now left lo hi filter.now from result }
{
    if filter.len() < from {
        return Along {
            lo,
            hi: lo,
            next: from,
            barred: false,
        };
    }
    let step = steps::next_step(filter, from);
    let span = span_of(s, base, lo, hi, left, filter, from, step);
    Along {
        lo: span.lo,
        hi: span.hi,
        next: step.next,
        barred: bars(left, step.wild),
    }
}

// The sibling at unit i begins with '$', where such names are barred.
pub fn is_hidden(s: &[u8], base: usize, i: usize, hi: usize, barred: bool) -> bool
    requires { (i < hi) × (unit_at base hi ≤ length s.now) }
    ensures { result ≡ (barred && dollar (level_in base s.now i hi)) }
{
    barred && level::is_metadata(forest::level_at(s, base, i, hi))
}
