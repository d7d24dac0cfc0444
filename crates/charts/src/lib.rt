// The wall chart of quorums: its questions in order, then every smallest write quorum entered in the lent list.
#![tactic(auto)]

ghost use Rattle.std.specs.Prelude.{◌≡◌, true, cond, List, ℕ, ◌+◌, ◌-◌, ◌*◌, ◌/◌, ◌%◌, ◌^◌, ◌≤◌, length};
ghost use Rattle.octets.specs.Bytes.{bytes_of, put};
ghost use Rattle.asking.specs.Asking.{result_number};
ghost use Rattle.asking.specs.Refusals.{answer_number};
ghost use Rattle.grid.specs.Sizes.{Fits};
ghost use Rattle.charting.specs.Charts.{chart, in_places, has_chart, charted};
ghost use Rattle.charts.specs.Drawn.{chart_to};

use asking::Refusal;
use grid::Grid;
use rows::RowSet;

// A set entered at a byte of the list, where it is wanted; where the next goes.
fn enter(list: &mut [u8], at: usize, set: u64, wanted: bool) -> usize
    requires { wanted ≡ true → at + 2 ≤ length list.old }
    ensures { (result ≡ cond wanted (at + 2) at) × (list.new ≡ cond wanted (put at (bytes_of 2 set) list.old) list.old) }
{
    if wanted {
        octets::store_at(list, at, 2, set);
        return at + 2;
    }
    at
}

// The smallest write quorums entered of the sets that have the same rows above the first, rising from the one with an empty first row.
fn draw_row(list: &mut [u8], from: usize, start: u64, g: Grid, members: usize) -> usize
    requires { Fits g members × (members ≤ 9) × (length (chart g members) ≤ 64) × (128 ≤ length list.old) × (start % 2 ^ g.cols ≡ 0) × (start + 2 ^ g.cols ≤ 2 ^ members) × (from ≡ 2 * length (chart_to g members start)) }
    ensures { (result ≡ 2 * length (chart_to g members (start + 2 ^ g.cols))) × ((xs : List ℕ) → list.old ≡ put 0 (in_places (chart_to g members start)) xs → list.new ≡ put 0 (in_places (chart_to g members (start + 2 ^ g.cols))) xs) }
{
    let above = columns::columns_above(g, members, start);
    let end = start + (1 << g.cols as usize);
    let mut at = from;
    for set in start..end {
        let wanted = columns::is_smallest(g, members, RowSet { bits: set }, above);
        at = enter(list, at, set, wanted);
    }
    at
}

// Every smallest write quorum entered, rising; how many there are.
fn draw(g: Grid, members: usize, list: &mut [u8]) -> usize
    requires { Fits g members × (members ≤ 9) × (length (chart g members) ≤ 64) × (128 ≤ length list.old) }
    ensures { (result ≡ length (chart g members)) × (list.new ≡ put 0 (in_places (chart g members)) list.old) }
{
    let end: u64 = 1 << members;
    let step: u64 = 1 << g.cols as usize;
    let mut at = 0;
    for row in 0..end / step {
        at = draw_row(list, at, row * step, g, members);
    }
    at / 2
}

// Is there a chart of a length and a mark? A mark is one byte.
fn has_chart(length: u64, mark: u64) -> bool
    ensures { result ≡ has_chart length mark }
{
    if length == 0 {
        return false;
    }
    if 9 < length {
        return false;
    }
    if 255 < mark {
        return false;
    }
    grid::mark_fits(mark as u8, length as usize)
}

// The chart of a list of `length` members with a grid mark, two bytes for each set. Value: how many.
pub fn chart(length: u64, mark: u64, list: &mut [u8]) -> Result<u32, Refusal>
    ensures { (let o = charted length mark list.old in (answer_number result ≡ result_number o.refusal o.value) × (list.new ≡ o.list)) }
{
    if !has_chart(length, mark) {
        return Err(Refusal::NoChart);
    }
    if list.len() < 128 {
        return Err(Refusal::WrongSpace);
    }
    let members = length as usize;
    let g = grid::of_mark(mark as u8, members);
    Ok(draw(g, members, list) as u32)
}
