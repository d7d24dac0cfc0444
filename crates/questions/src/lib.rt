// The questions that a call is asked before its poll, the limit, and the answer of a read or a write.
#![tactic(auto)]

ghost use Rattle.std.specs.Prelude.{◌≡◌, true, ◌&&◌, [], ◌+◌, ◌≤◌, leb, ltb, length};
ghost use Rattle.table.specs.WellFormed.{limit, well_formed};
ghost use Rattle.asking.specs.Asking.{first_no};
ghost use Rattle.asking.specs.Refusals.{no_number};
ghost use Rattle.protocol.specs.Calls.{by_coordinator, in_group, noted};
ghost use Rattle.questions.specs.Stages.{to_range};

use asking::Refusal;
use rows::RowSet;

// How many machines were called, noted in a list of one byte; one of another length is left alone.
pub fn note(bytes: &mut [u8], called: u8)
    ensures { bytes.new ≡ noted bytes.old called }
{
    if bytes.len() == 1 {
        bytes[0] = called;
    }
}

// Question 8: may a version or an epoch number still grow?
pub fn below_limit(number: u32) -> bool
    ensures { result ≡ ltb number limit }
{
    number < 1_000_000
}

// Questions 2 and 3 of a call by a coordinator, after 1.
pub fn coordinator_asked(t: &[u8], c: usize, answering: RowSet) -> Result<(), Refusal>
    requires { well_formed t.now ≡ true }
    ensures { no_number result ≡ first_no (by_coordinator t.now c answering.bits []) }
{
    let used = header::used(t);
    if !(values::between(1, c, used) && values::only_rows(used, answering.bits)) {
        return Err(Refusal::UnknownRow);
    }
    if !answering.has(c) {
        return Err(Refusal::NotAnswering);
    }
    Ok(())
}

// Is a range of at least one byte within a file of so many? (A sum could be too large.)
fn in_range(file: usize, offset: usize, count: usize) -> bool
    ensures { result ≡ (leb 1 count && leb (offset + count) file) }
{
    1 <= count && count <= file && offset <= file - count
}

// Question 16: is this a file of the group?
pub fn in_group(t: &[u8], q: usize) -> bool
    requires { 16 ≤ length t.now }
    ensures { result ≡ in_group t.now q }
{
    values::between(1, q, header::files(t))
}

// Questions 2, 3, 16 and 4 of a read or a write of file q, after 1.
pub fn range_asked(
    t: &[u8],
    q: usize,
    c: usize,
    answering: RowSet,
    offset: usize,
    count: usize,
) -> Result<(), Refusal>
    requires { well_formed t.now ≡ true }
    ensures { no_number result ≡ first_no (to_range t.now q c answering.bits offset count) }
{
    coordinator_asked(t, c, answering)?;
    if !in_group(t, q) {
        return Err(Refusal::UnknownFile);
    }
    if !in_range(header::file_length(t), offset, count) {
        return Err(Refusal::WrongRange);
    }
    Ok(())
}
