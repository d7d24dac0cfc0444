// Is a set of positions a smallest write quorum? By the columns of its grid.
#![tactic(auto)]

ghost use Rattle.std.specs.Prelude.{◌≡◌, ◌-◌, ◌/◌, ◌^◌, ◌≤◌};
ghost use Rattle.sets.specs.Sets.{has};
ghost use Rattle.grid.specs.Sizes.{Fits};
ghost use Rattle.charting.specs.Charts.{smallest};
ghost use Rattle.columns.specs.Columns.{ColumnsOf};

use grid::Grid;
use rows::RowSet;

// Of some rows of the grid: the columns with a member, those with two, and those without a gap.
#[derive(Clone, Copy)]
pub struct Columns {
    pub touched: RowSet,
    pub twice: RowSet,
    pub whole: RowSet,
}

// The columns of a set of positions: those of the rows above the first, and the first row.
fn with_first(above: Columns, columns: usize, length: usize, set: RowSet) -> Columns
    requires { (columns ≤ 64) × (length ≤ 64) × ColumnsOf (has above.touched.bits) (has above.twice.bits) (has above.whole.bits) columns (length - columns) (has (set.bits / 2 ^ columns)) }
    ensures { ColumnsOf (has result.touched.bits) (has result.twice.bits) (has result.whole.bits) columns length (has set.bits) }
{
    let seats = RowSet::first(length).cut(RowSet::first(columns));
    let row = seats.cut(set);
    Columns {
        touched: above.touched.joined(row),
        twice: above.twice.joined(above.touched.cut(row)),
        whole: above.whole.outside(seats.outside(set)),
    }
}

// The columns of the rows above the first, from the last row on.
pub fn columns_above(g: Grid, length: usize, set: u64) -> Columns
    requires { Fits g length × (length ≤ 64) }
    ensures { ColumnsOf (has result.touched.bits) (has result.twice.bits) (has result.whole.bits) g.cols (length - g.cols) (has (set / 2 ^ g.cols)) }
{
    let columns = g.cols as usize;
    let mut c = Columns {
        touched: RowSet::EMPTY,
        twice: RowSet::EMPTY,
        whole: RowSet::first(columns),
    };
    for row in (1..g.rows as usize).rev() {
        let at = row * columns;
        c = with_first(c, columns, length - at, RowSet { bits: set >> at });
    }
    c
}

// Is a set a smallest write quorum? It touches every column, has a whole one, and only that can have two members.
pub fn is_smallest(g: Grid, length: usize, set: RowSet, above: Columns) -> bool
    requires { Fits g length × (length ≤ 64) × ColumnsOf (has above.touched.bits) (has above.twice.bits) (has above.whole.bits) g.cols (length - g.cols) (has (set.bits / 2 ^ g.cols)) }
    ensures { result ≡ smallest g length (has set.bits) }
{
    let columns = g.cols as usize;
    let c = with_first(above, columns, length, set);
    if !c.touched.fills(columns) {
        return false;
    }
    if c.whole.is_empty() {
        return false;
    }
    if c.twice.is_empty() {
        return true;
    }
    c.twice.joined(c.whole).rest().is_empty()
}
