// The grid of a list: how many rows and columns it has.
#![tactic(auto)]

ghost use Rattle.std.specs.Prelude.{◌≡◌, cond, leb, ◌≤◌};
ghost use Rattle.grid.specs.Sizes.{published, no_grid, exchanged, grid_by, mark_fits, new_mark, height, Fits};

// The sizes of a grid. (The table below has one for each length of a list. Columns first: then no entry lies across two of the stores by
// which the compiler builds the table.)
#[derive(Clone, Copy, PartialEq, Eq)]
pub struct Grid {
    pub cols: u8,
    pub rows: u8,
}

// The published grid of each length from 1 to 64.
const GRIDS: [Grid; 64] = [
    Grid { rows: 1, cols: 1 }, // 1
    Grid { rows: 1, cols: 2 }, // 2
    Grid { rows: 2, cols: 2 }, // 3
    Grid { rows: 2, cols: 2 }, // 4
    Grid { rows: 2, cols: 3 }, // 5
    Grid { rows: 2, cols: 3 }, // 6
    Grid { rows: 3, cols: 3 }, // 7
    Grid { rows: 3, cols: 3 }, // 8
    Grid { rows: 3, cols: 3 }, // 9
    Grid { rows: 3, cols: 4 }, // 10
    Grid { rows: 3, cols: 4 }, // 11
    Grid { rows: 3, cols: 4 }, // 12
    Grid { rows: 4, cols: 4 }, // 13
    Grid { rows: 4, cols: 4 }, // 14
    Grid { rows: 4, cols: 4 }, // 15
    Grid { rows: 4, cols: 4 }, // 16
    Grid { rows: 4, cols: 5 }, // 17
    Grid { rows: 4, cols: 5 }, // 18
    Grid { rows: 4, cols: 5 }, // 19
    Grid { rows: 4, cols: 5 }, // 20
    Grid { rows: 5, cols: 5 }, // 21
    Grid { rows: 5, cols: 5 }, // 22
    Grid { rows: 5, cols: 5 }, // 23
    Grid { rows: 5, cols: 5 }, // 24
    Grid { rows: 5, cols: 5 }, // 25
    Grid { rows: 5, cols: 6 }, // 26
    Grid { rows: 5, cols: 6 }, // 27
    Grid { rows: 5, cols: 6 }, // 28
    Grid { rows: 5, cols: 6 }, // 29
    Grid { rows: 5, cols: 6 }, // 30
    Grid { rows: 6, cols: 6 }, // 31
    Grid { rows: 6, cols: 6 }, // 32
    Grid { rows: 6, cols: 6 }, // 33
    Grid { rows: 6, cols: 6 }, // 34
    Grid { rows: 6, cols: 6 }, // 35
    Grid { rows: 6, cols: 6 }, // 36
    Grid { rows: 6, cols: 7 }, // 37
    Grid { rows: 6, cols: 7 }, // 38
    Grid { rows: 6, cols: 7 }, // 39
    Grid { rows: 6, cols: 7 }, // 40
    Grid { rows: 6, cols: 7 }, // 41
    Grid { rows: 6, cols: 7 }, // 42
    Grid { rows: 7, cols: 7 }, // 43
    Grid { rows: 7, cols: 7 }, // 44
    Grid { rows: 7, cols: 7 }, // 45
    Grid { rows: 7, cols: 7 }, // 46
    Grid { rows: 7, cols: 7 }, // 47
    Grid { rows: 7, cols: 7 }, // 48
    Grid { rows: 7, cols: 7 }, // 49
    Grid { rows: 7, cols: 8 }, // 50
    Grid { rows: 7, cols: 8 }, // 51
    Grid { rows: 7, cols: 8 }, // 52
    Grid { rows: 7, cols: 8 }, // 53
    Grid { rows: 7, cols: 8 }, // 54
    Grid { rows: 7, cols: 8 }, // 55
    Grid { rows: 7, cols: 8 }, // 56
    Grid { rows: 8, cols: 8 }, // 57
    Grid { rows: 8, cols: 8 }, // 58
    Grid { rows: 8, cols: 8 }, // 59
    Grid { rows: 8, cols: 8 }, // 60
    Grid { rows: 8, cols: 8 }, // 61
    Grid { rows: 8, cols: 8 }, // 62
    Grid { rows: 8, cols: 8 }, // 63
    Grid { rows: 8, cols: 8 }, // 64
];

// The entry of a length that the table has.
fn entry(length: usize) -> Grid
    requires { (1 ≤ length) × (length ≤ 64) }
    ensures { result ≡ published length }
{
    GRIDS[length - 1]
}

// The published grid of a list of `length` members; no rows and no columns where the length is 0 or above 64.
pub fn published(length: usize) -> Grid
    ensures { result ≡ cond (leb length 64) (published length) no_grid }
{
    if length == 0 || 64 < length {
        return Grid { rows: 0, cols: 0 };
    }
    entry(length)
}

// Rows and columns exchanged where the rows are one less than the columns.
#[tactic(auto, unfolding(crate::specs::Sizes::exchanged))]
fn exchanged(g: Grid) -> Grid
    ensures { result ≡ exchanged g }
{
    if g.rows as usize + 1 == g.cols as usize {
        return Grid {
            rows: g.cols,
            cols: g.rows,
        };
    }
    g
}

// The grid that `length` members of a level were laid in by their list's mark; no rows and no columns where the length is 0 or above 64.
pub fn of_mark(mark: u8, length: usize) -> Grid
    ensures { result ≡ cond (leb length 64) (grid_by mark length) no_grid }
{
    match mark {
        2 => exchanged(published(length)),
        1 | 3 if length == 5 => Grid { rows: 3, cols: 2 },
        _ => published(length),
    }
}

// Can a list of `length` members within one county have the mark?
#[tactic(auto, unfolding(crate::specs::Sizes::mark_fits))]
pub fn mark_fits(mark: u8, length: usize) -> bool
    ensures { result ≡ mark_fits mark length }
{
    mark == 0 || mark == 1 && length == 5 || mark == 2 && 1 <= length
}

// The mark of a list of `length` members within one county that is laid now, in a tall table or in a wide one.
#[tactic(auto, unfolding(crate::specs::Sizes::new_mark))]
pub fn new_mark(tall: bool, length: usize) -> u8
    ensures { result ≡ new_mark tall length }
{
    if tall {
        2
    } else if length == 5 {
        1
    } else {
        0
    }
}

// How many rows of column j are occupied, in a grid that fits the length.
pub fn height(g: Grid, length: usize, j: usize) -> usize
    requires { Fits g length × (1 ≤ j) × (j ≤ g.cols) }
    ensures { result ≡ height g length j }
{
    (length - j) / g.cols as usize + 1
}
