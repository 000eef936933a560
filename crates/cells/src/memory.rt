// Type cells in a slice of words, five for each: what the cell says of its type, and a pair beside it. Links and not boxes: there is no heap.
ghost use Rattle.std.specs.Prelude.{◌<◌, ◌≡◌};
ghost use Rattle.cells.specs.Layout.{words_at, cell_in, as_words, cell_at, pair_at, cells_in};
ghost use Rattle.cells.specs.Puts.{CellPut, PairPut};

use crate::TypeCell;

// A cell as it stands in memory: a tag and the cells that it names. Tag 0 is a free cell, 1 a link, 2 to 4 are unit, bool and int, and 5 is
// an arrow: numbers, since callers lend words. Words that a cell has no use for are 0 where it is written, and of no account where it is read.
#[derive(Clone, Copy)]
pub(crate) struct Words {
    pub tag: u32,
    pub a: u32,
    pub b: u32,
}

impl From<Words> for TypeCell {
    ghost from_gives = { λ w c. c ≡ cell_in w };

    fn from(w: Words) -> TypeCell {
        match w.tag {
            1 => TypeCell::Link(w.a),
            2 => TypeCell::UnitType,
            3 => TypeCell::BoolType,
            4 => TypeCell::IntType,
            5 => TypeCell::Arrow(w.a, w.b),
            _ => TypeCell::Free,
        }
    }
}

impl From<TypeCell> for Words {
    ghost from_gives = { λ c w. w ≡ as_words c };

    fn from(c: TypeCell) -> Words {
        match c {
            TypeCell::Free => Words { tag: 0, a: 0, b: 0 },
            TypeCell::Link(j) => Words { tag: 1, a: j, b: 0 },
            TypeCell::UnitType => Words { tag: 2, a: 0, b: 0 },
            TypeCell::BoolType => Words { tag: 3, a: 0, b: 0 },
            TypeCell::IntType => Words { tag: 4, a: 0, b: 0 },
            TypeCell::Arrow(l, r) => Words { tag: 5, a: l, b: r },
        }
    }
}

// Beside a cell: a pending pair of cells for the solver, a mark and a variable's number for what comes after it.
#[derive(Clone, Copy)]
pub(crate) struct Pair {
    pub left: u32,
    pub right: u32,
}

// Its own, and not that of the machine's stores: there a cell is the first five of eight words.
pub(crate) fn get_words(cells: &[u32], i: u32) -> Words
    requires { i < cells_in cells.now }
    ensures { result ≡ words_at cells.now i }
{
    // `as`, here and below: the library has no `From` from `u32` to `usize`.
    let at = 5 * (i as usize);
    Words {
        tag: cells[at],
        a: cells[at + 1],
        b: cells[at + 2],
    }
}

pub(crate) fn put_words(cells: &mut [u32], i: u32, w: Words)
    requires { i < cells_in cells.old }
    ensures { CellPut cells.old cells.new i w }
{
    let at = 5 * (i as usize);
    cells[at] = w.tag;
    cells[at + 1] = w.a;
    cells[at + 2] = w.b;
}

pub(crate) fn get(cells: &[u32], i: u32) -> TypeCell
    requires { i < cells_in cells.now }
    ensures { result ≡ cell_at cells.now i }
{
    TypeCell::from(get_words(cells, i))
}

pub(crate) fn put(cells: &mut [u32], i: u32, c: TypeCell)
    requires { i < cells_in cells.old }
    ensures { CellPut cells.old cells.new i (as_words c) }
{
    put_words(cells, i, Words::from(c));
}

pub(crate) fn get_pair(cells: &[u32], i: u32) -> Pair
    requires { i < cells_in cells.now }
    ensures { result ≡ pair_at cells.now i }
{
    let at = 5 * (i as usize);
    Pair {
        left: cells[at + 3],
        right: cells[at + 4],
    }
}

pub(crate) fn put_pair(cells: &mut [u32], i: u32, p: Pair)
    requires { i < cells_in cells.old }
    ensures { PairPut cells.old cells.new i p }
{
    let at = 5 * (i as usize);
    cells[at + 3] = p.left;
    cells[at + 4] = p.right;
}
