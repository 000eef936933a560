// Does every type cell evaluate, without a cycle through arrows? Cells are marked as soon as all that they lean on is marked.
ghost use Rattle.std.specs.Prelude.{◌*◌, ◌<◌, ◌≡◌, length};
ghost use Rattle.cells.specs.Layout.{cells_in, Sound};
ghost use Rattle.cells.specs.Interface.{GroundTested};
ghost use Rattle.cells.specs.Grounding.{unmarked, UnmarkedBelow, Unmarked, Marking, MarkingAt, LeansOrEvaluates, Progress};

use crate::TypeCell;
use crate::memory::{Pair, get, get_pair, put_pair};

// n beside the cells, here and below: `grounded` counts them once.
pub(crate) fn unmark(cells: &mut [u32], n: u32)
    requires { Sound cells.old × (length cells.old ≡ 5 * n) }
    ensures { UnmarkedBelow cells.old cells.new n }
{
    for i in 0..n {
        put_pair(cells, i, Pair { left: 0, right: 0 });
    }
}

fn is_unmarked(cells: &[u32], i: u32) -> bool
    requires { i < cells_in cells.now }
    ensures { result ≡ unmarked cells.now i }
{
    // A mark is 0 or 1: it is a word of lent memory.
    get_pair(cells, i).left == 0
}

// Does cell i lean on an unmarked cell?
fn leans(cells: &[u32], i: u32) -> bool
    requires { MarkingAt cells.now i }
    ensures { LeansOrEvaluates cells.now i result }
{
    match get(cells, i) {
        TypeCell::Link(j) => is_unmarked(cells, j),
        TypeCell::Arrow(l, r) => is_unmarked(cells, l) || is_unmarked(cells, r),
        _ => false,
    }
}

// Marks cell i unless it is marked or leans on an unmarked cell. Answers how many cells it marked, and no flag: `pass` adds them up.
fn visit(cells: &mut [u32], i: u32) -> u32
    requires { MarkingAt cells.old i }
    ensures { Progress (λ j. j ≡ i) cells.old cells.new result }
{
    if !is_unmarked(cells, i) {
        return 0;
    }
    if leans(cells, i) {
        return 0;
    }
    put_pair(cells, i, Pair { left: 1, right: 0 });
    1
}

// Visits every cell. Upwards and downwards at once: a chain of cells is marked in one pass, whichever way it leads.
fn pass(cells: &mut [u32], n: u32) -> u32
    requires { Marking cells.old × (length cells.old ≡ 5 * n) }
    ensures { Progress (λ j. j < n) cells.old cells.new result }
{
    let mut new = 0;
    for i in 0..n {
        let up = visit(cells, i);
        let down = visit(cells, n - 1 - i);
        new += up + down;
    }
    new
}

// Passes until no cell is left, or until a pass marks none.
pub(crate) fn sweep(cells: &mut [u32], n: u32) -> bool
    requires { Unmarked cells.old × (length cells.old ≡ 5 * n) }
    ensures { GroundTested cells.old cells.new result }
{
    let mut left = n;
    while 0 < left {
        let new = pass(cells, n);
        if new == 0 {
            return false;
        }
        left -= new;
    }
    true
}
