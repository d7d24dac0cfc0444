// The founding of a table: its questions in order, then what is done.
#![tactic(auto)]

ghost use Rattle.std.specs.Prelude.{◌≡◌, ◌&&◌, ◌+◌, ◌*◌, ◌%◌, eqb, leb, length};
ghost use Rattle.sets.specs.Upto.{every};
ghost use Rattle.fields.specs.Layout.{stride};
ghost use Rattle.table.specs.WellFormed.{between, is_county};
ghost use Rattle.counties.specs.Counties.{county_at};
ghost use Rattle.asking.specs.Refusals.{answer_number};
ghost use Rattle.protocol.specs.Calls.{founding, names_in, names_rising, result_of, outcome};

use asking::Refusal;
use bools::both;
use values::{between, is_county};

// Do the names rise strictly, and is none of them 0?
fn names_rise(names: &[u8]) -> bool
    requires { length names.now ≡ 2 * length (names_in names.now) }
    ensures { result ≡ names_rising 0 (names_in names.now) }
{
    let mut ok = true;
    let mut low: u16 = 0;
    for i in 0..names.len() / 2 {
        let x = octets::u16_at(names, 2 * i);
        ok = both(ok, low < x);
        low = x;
    }
    ok
}

// Are there 1 to 64 names, two bytes each, strictly rising, none 0?
fn names_right(names: &[u8]) -> bool
    ensures { result ≡ (eqb (length names.now % 2) 0 && between 1 (length (names_in names.now)) 64 && names_rising 0 (names_in names.now)) }
{
    names.len() % 2 == 0 && between(1, names.len() / 2, 64) && names_rise(names)
}

// Question 12: is there a row for each of n names, and is the table as long as it must be?
fn sizes_right(bytes: usize, capacity: usize, files: usize, file: usize, n: usize) -> bool
    ensures { result ≡ (between 1 capacity 64 && leb n capacity && between 1 file 4_096 && between 1 files 8 && eqb bytes (16 + capacity * stride files file)) }
{
    between(1, capacity, 64)
        && n <= capacity
        && between(1, file, 4_096)
        && between(1, files, 8)
        && bytes == header::HEADER + capacity * table::row_size(files, file)
}

// Question 20: is there a county for each of n names, one of 1 to 8?
fn counties_right(counties: &[u8], n: usize) -> bool
    ensures { result ≡ (eqb (length counties.now) n && every n (λ i. is_county (county_at counties.now i))) }
{
    if counties.len() != n {
        return false;
    }
    let mut ok = true;
    for place in counties {
        ok = both(ok, is_county(*place as usize));
    }
    ok
}

// A founding: a table of so many rows for so many files of so many bytes, with the named machines in it, each in its county; choice 0 wide, 1 tall. Value: how many.
pub fn found(
    t: &mut [u8],
    capacity: usize,
    file: usize,
    names: &[u8],
    choice: u64,
    files: usize,
    counties: &[u8],
) -> Result<u32, Refusal>
    ensures { let o = outcome t.old (founding (record { capacity = capacity; file_length = file; names = names.now; choice = choice; files = files; counties = counties.now })) in (answer_number result ≡ result_of o) × (t.new ≡ o.table) × (names.now ≡ names.now) × (counties.now ≡ counties.now) }
{
    if !(names_right(names) && choice <= 1) {
        return Err(Refusal::WrongNames);
    }
    let n = names.len() / 2;
    if !sizes_right(t.len(), capacity, files, file, n) {
        return Err(Refusal::WrongSizes);
    }
    if !counties_right(counties, n) {
        return Err(Refusal::WrongCounty);
    }
    laying::lay_table(t, capacity, files, file, names, choice, counties);
    Ok(n as u32)
}
