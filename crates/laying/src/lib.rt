// A new table laid out.
#![tactic(auto)]

ghost use Rattle.std.specs.Prelude.{◌≡◌, cond, ℕ, ◌+◌, ◌*◌, ◌≤◌, ◌<◌, eqb, length, get_or};
ghost use Rattle.sets.specs.Upto.{Within};
ghost use Rattle.fields.specs.Layout.{store, store_list, name, link, county, stride};
ghost use Rattle.protocol.specs.Calls.{names_in, founded};

use fields::Laid;
use grouping::Counties;
use rows::RowSet;

// The row behind row i in the chain of the rows 1 to n: 0 behind the last.
fn next_row(i: usize, n: usize) -> u8
    requires { (i ≤ n) × (n ≤ 64) }
    ensures { result ≡ cond (eqb i n) 0 (i + 1) }
{
    if i == n { 0 } else { (i + 1) as u8 }
}

// A row gets its name, the next row, its county and the list.
fn found_row(row: &mut [u8], x: u16, next: u8, place: u8, list: Laid)
    requires { 32 ≤ length row.old }
    ensures { row.new ≡ store_list list (store county place (store link next (store name x row.old))) }
{
    fields::set_name(row, x);
    fields::set_link(row, next);
    fields::set_county(row, place);
    fields::set_list(row, list);
}

// A table of so many rows for so many files of so many bytes, with the named rows in it, each in its county; by choice 1 it is tall.
pub fn lay_table(
    t: &mut [u8],
    capacity: usize,
    files: usize,
    file: usize,
    names: &[u8],
    choice: u64,
    counties: &[u8],
)
    requires { (length t.old ≡ 16 + capacity * stride files file) × Within 8 files × Within 4_096 file × (capacity ≤ 64) × (length names.now ≡ 2 * length (names_in names.now)) × Within capacity (length (names_in names.now)) × (length counties.now ≡ length (names_in names.now)) × ((k : ℕ) → k < length counties.now → get_or counties.now k 0 ≤ 8) }
    ensures { t.new ≡ founded choice capacity files file (names_in names.now) counties.now }
{
    let n = names.len() / 2;
    let sets = grouping::of_places(counties);
    let list = Counties::new(&sets).laid_now(choice == 1, RowSet::first(n));
    let size = table::row_size(files, file);
    // the rows stand behind the header, up to the end
    let mut at = t.len() - capacity * size;
    octets::fill(t, 0);
    header::set_header(t, capacity as u8, n as u8, file as u16, files as u8);
    for i in 0..n {
        let x = octets::u16_at(names, 2 * i);
        let place = counties[i];
        found_row(&mut t[at..at + size], x, next_row(i + 1, n), place, list);
        at += size;
    }
}
