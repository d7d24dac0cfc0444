// Heads of a table as most calls meet it: the chain goes from row to row, and the rows have one list or two. One pass sees all that question 1 asks of such
// heads; where it ends early, nothing is said of the table.
#![tactic(auto)]

ghost use Rattle.std.specs.Prelude.{◌≡◌, true, ◌+◌, ◌≤◌, length, IfSome};
ghost use Rattle.sets.specs.Upto.{Within};
ghost use Rattle.octets.specs.Bytes.{number, part, all_zero};
ghost use Rattle.fields.specs.Layout.{get, epoch, list, members, county, is_tall, form_of, used_of, row_length, epoch_of, list_of};
ghost use Rattle.counties.specs.Marks.{mark_right};
ghost use Rattle.table.specs.WellFormed.{limit, only_rows};
ghost use Rattle.table.specs.Asked.{Sized};
ghost use Rattle.grouping.specs.Grouped.{county_by, Grouped};
ghost use Rattle.straight.specs.Straight.{behind, Straight, Placed, Listed, Settled, numbered};

use bools::both;
use fields::Laid;
use grouping::{Counties, put};
use rows::RowSet;

// Where a link starts, with the bytes behind it that hold nothing; where two more of these are; where the county is, with three bytes behind it, and the last two.
const LINK_AT: usize = 2;

const GAP_AT: usize = 10;

const COUNTY_AT: usize = 26;

const REST_AT: usize = 30;

// Does row i of n lead to the row behind it, and the last to none? The link is looked at with the seven bytes behind it.
fn leads_on(row: &[u8], i: usize, n: usize) -> bool
    requires { (i ≤ n) × (n ≤ 64) × (32 ≤ length row.now) }
    ensures { result ≡ true → number (part 2 8 row.now) ≡ behind n i }
{
    let next = octets::u64_at(row, LINK_AT) as usize;
    if next == i + 1 {
        return i != n;
    }
    both(next == 0, i == n)
}

// The county of row i of n, where the row leads to the one behind it and is on its own list, and its bytes that hold nothing are 0.
fn county_of(row: &[u8], i: usize, n: usize) -> Option<u8>
    requires { Within n i × (n ≤ 64) × (32 ≤ length row.now) }
    ensures { IfSome result (λ c. Placed n i row.now × (c ≡ get county row.now)) }
{
    if !leads_on(row, i, n) {
        return None;
    }
    if octets::u16_at(row, GAP_AT) != 0 {
        return None;
    }
    let list = RowSet {
        bits: fields::members(row),
    };
    if !list.at(i - 1) {
        return None;
    }
    if octets::u16_at(row, REST_AT) != 0 {
        return None;
    }
    let wide = octets::u32_at(row, COUNTY_AT) as usize;
    if values::is_county(wide) {
        return Some(wide as u8);
    }
    None
}

// Has a row this epoch number and this list? The mark is looked at with the byte behind it.
fn has_list(row: &[u8], since: u32, laid: Laid) -> bool
    requires { 32 ≤ length row.now }
    ensures { result ≡ true → (get epoch row.now ≡ since) × (list row.now ≡ laid) × (all_zero (part 25 1 row.now) ≡ true) }
{
    if fields::epoch(row) != since {
        return false;
    }
    if fields::members(row) != laid.members {
        return false;
    }
    octets::u16_at(row, fields::GRID_MARK_AT) == laid.mark as u16
}

// The row that has the other list, once row i was looked at: `other`, or row i where all before it have the list of row 1; none where row i has a third.
fn other_with(
    t: &[u8],
    size: usize,
    other: usize,
    i: usize,
    since: u32,
    laid: Laid,
) -> Option<usize>
    requires { Sized t.now × (size ≡ row_length t.now) × Within (used_of t.now) other × Within (used_of t.now) i × (since ≡ epoch_of t.now 1) × (laid ≡ list_of t.now 1) }
    ensures { IfSome result (λ next. Listed t.now other i next) }
{
    let row = table::row_at(t, size, i);
    if has_list(row, since, laid) {
        return Some(other);
    }
    let second = table::row_at(t, size, other);
    if has_list(row, fields::epoch(second), fields::list(second)) {
        return Some(other);
    }
    if other != 1 {
        return None;
    }
    if octets::u8_at(row, fields::GRID_MARK_AT + 1) != 0 {
        return None;
    }
    Some(i)
}

// Are a row's epoch number and list right by themselves?
fn list_right(counties: &Counties, n: usize, row: &[u8]) -> bool
    requires { (n ≤ 64) × (32 ≤ length row.now) }
    ensures { result ≡ true → (get epoch row.now ≤ limit) × (only_rows n (get members row.now) ≡ true) × (mark_right (county_by counties.now) (list row.now) ≡ true) }
{
    if values::LIMIT < fields::epoch(row) {
        return false;
    }
    let own = fields::list(row);
    if !values::only_rows(n, own.members) {
        return false;
    }
    counties.mark_right(own)
}

// Are the lists of two rows of two epochs, and both tall or none?
fn are_apart(row: &[u8], other: &[u8]) -> bool
    requires { (32 ≤ length row.now) × (32 ≤ length other.now) }
    ensures { result ≡ true → (get epoch row.now ≡ get epoch other.now → ⊥) × (is_tall (list row.now) ≡ is_tall (list other.now)) }
{
    if fields::epoch(row) == fields::epoch(other) {
        return false;
    }
    let one = fields::list(row);
    let two = fields::list(other);
    one.is_tall() == two.is_tall()
}

// Are the list of row 1 and the other right, and do they agree?
fn lists_right(t: &[u8], size: usize, n: usize, other: usize, counties: &Counties) -> bool
    requires { Sized t.now × (size ≡ row_length t.now) × (n ≡ used_of t.now) × Within n other }
    ensures { result ≡ true → Settled t.now (county_by counties.now) other }
{
    let first = table::row_at(t, size, 1);
    if !list_right(counties, n, first) {
        return false;
    }
    if other == 1 {
        return true;
    }
    let second = table::row_at(t, size, other);
    if !list_right(counties, n, second) {
        return false;
    }
    are_apart(first, second)
}

// All that question 1 asks of heads, lists and chain, where the table is as most calls meet it; `sets` are then those of the counties. Where it is no, nothing is
// known.
pub fn look(t: &[u8], sets: &mut [u64; 8]) -> bool
    requires { Sized t.now × (4 ≤ form_of t.now) }
    ensures { result ≡ true → Straight t.now × Grouped t.now sets.new }
{
    *sets = [0u64; 8];
    if header::first(t) != 1 {
        return false;
    }
    let size = table::row_size(header::files(t), header::file_length(t));
    let used = header::used(t);
    let first = table::row_at(t, size, 1);
    let first_epoch = fields::epoch(first);
    let first_list = fields::list(first);
    let mut other = 1;
    let mut low: u16 = 0;
    for k in 0..used {
        let row = table::row_at(t, size, k + 1);
        let name = fields::name(row);
        if name <= low {
            return false;
        }
        let Some(county) = county_of(row, k + 1, used) else {
            return false;
        };
        put(sets, k, county);
        let Some(next) = other_with(t, size, other, k + 1, first_epoch, first_list) else {
            return false;
        };
        other = next;
        low = name;
    }
    lists_right(t, size, used, other, &Counties::new(sets))
}

// The first n places of an array become 1 to n.
pub fn number(rows: &mut [u8; 64], n: usize)
    requires { n ≤ 64 }
    ensures { (length rows.old ≡ 64) × (rows.new ≡ numbered rows.old n) }
{
    let places = &mut rows[..];
    // a byte of its own to count by: so it takes many places at a time
    let mut next: u8 = 0;
    for k in 0..n {
        next += 1;
        places[k] = next;
    }
}
