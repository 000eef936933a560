// Type cells in a lent slice of words: each is an unknown type with what is known of it. Equations between them are solved as they are said,
// and then the type of a cell is written out.
#![tactic(auto)]

mod ground;
mod memory;
mod solve;
mod write;

ghost use Rattle.std.specs.Prelude.{◌<◌, ◌≡◌};
ghost use Rattle.cells.specs.Cells.{Fits};
ghost use Rattle.cells.specs.Layout.{cells_in, Sound};
ghost use Rattle.cells.specs.Interface.{Started, Sayable, Outcome, GroundTested, Unnumbered, CellWritten};

use crate::ground::{sweep, unmark};
use crate::memory::put;
use crate::solve::{find, say_root, solve};
use crate::write::{Rest, measure, write};

// What is known of a type: nothing, that it is a cell's, that it is a base type, or that it is an arrow from the one cell's to the other's.
#[derive(Clone, Copy, Debug, PartialEq, Eq)]
pub enum TypeCell {
    Free,
    Link(u32),
    UnitType,
    BoolType,
    IntType,
    Arrow(u32, u32),
}

// No valuation satisfies the cells and what was to be true besides.
#[derive(Clone, Copy, Debug, PartialEq, Eq)]
pub struct Clash;

// All cells are new: 0 to 3 are bool, int, int → int and int → bool, and of the others nothing is known. No type carries `Sound` from here on: to make
// one, this would have to ask its callers for whole cells, 4,096 at most, which it does not.
pub fn start(cells: &mut [u32])
    requires { 3 < cells_in cells.old }
    ensures { Started cells.old cells.new }
{
    lent::clear(cells);
    put(cells, 0, TypeCell::BoolType);
    put(cells, 1, TypeCell::IntType);
    put(cells, 2, TypeCell::Arrow(1, 1));
    put(cells, 3, TypeCell::Arrow(1, 0));
}

// What c says is true of the type of cell i, or clashes. It is a base type or an arrow.
pub fn say(cells: &mut [u32], i: u32, c: TypeCell) -> Result<(), Clash>
    requires { Sound cells.old × (i < cells_in cells.old) × Sayable (cells_in cells.old) c }
    ensures { Outcome cells.old cells.new (λ ρ. Fits ρ i c) result }
{
    let r = find(cells, i);
    say_root(cells, r, c)
}

// Cells i and j have the same type, or clash.
pub fn join(cells: &mut [u32], i: u32, j: u32) -> Result<(), Clash>
    requires { Sound cells.old × (i < cells_in cells.old) × (j < cells_in cells.old) }
    ensures { Outcome cells.old cells.new (λ ρ. ρ i ≡ ρ j) result }
{
    solve(cells, i, j, 0)
}

// Does every cell have a type, or must one contain itself?
pub fn grounded(cells: &mut [u32]) -> bool
    requires { Sound cells.old }
    ensures { GroundTested cells.old cells.new result }
{
    // `as`: it fits, which is proved, and the library has no `From` here.
    let n = (cells.len() / 5) as u32;
    unmark(cells, n);
    sweep(cells, n)
}

// The type of cell i at the beginning of `out`, if it fits: so many words are written.
pub fn write_type(cells: &mut [u32], i: u32, out: &mut [u32]) -> Option<usize>
    requires { Unnumbered cells.old × (i < cells_in cells.old) }
    ensures { CellWritten cells.old i out.old out.new result }
{
    let room = out.len();
    let left = measure(cells, i, room)?;
    let count = room - left;
    let all = Rest {
        left: count,
        numbered: 0,
    };
    write(cells, &mut out[..count], i, all);
    Some(count)
}
