// A table carried over to another form, into a second lent buffer: its questions in order, then what is done.
#![tactic(auto)]

ghost use Rattle.std.specs.Prelude.{◌≡◌, ◌++◌, ◌+◌, ◌-◌, ◌*◌, ◌≤◌, ◌<◌, length, take};
ghost use Rattle.octets.specs.Bytes.{bytes_of, part, zeros};
ghost use Rattle.fields.specs.Layout.{store, former_oldest, form_of};
ghost use Rattle.table.specs.Asked.{Sized};
ghost use Rattle.asking.specs.Refusals.{answer_number};
ghost use Rattle.carrying.specs.Moves.{goes_over, all_plain, carried, carried_length};
ghost use Rattle.protocol.specs.Calls.{result_of, outcome, carry};

use asking::Refusal;
use bools::both;
use values::between;

// Do tables of the one form move to the other?
#[tactic(auto, unfolding(carrying::specs::Moves::goes_over))]
fn goes_over(from: usize, to: usize) -> bool
    ensures { result ≡ goes_over from to }
{
    let up = between(1, from, 2) && to == 3;
    let down = from == 3 && between(1, to, 2);
    up || down
}

// Has each used row a list, and none a grid mark?
fn all_plain(t: &[u8]) -> bool
    requires { Sized t.now }
    ensures { result ≡ all_plain t.now }
{
    for k in 0..header::used(t) {
        if !values::plain(table::row_of(t, k + 1)) {
            return false;
        }
    }
    true
}

// Head and contents of a row, without an oldest record.
fn carry_front(front: &mut [u8], row: &[u8])
    requires { (length front.old ≡ length row.now) × (32 ≤ length row.now) }
    ensures { front.new ≡ store former_oldest 0 row.now }
{
    copying::copy(front, row);
    octets::store_at(front, fields::FORMER_OLDEST_AT, 1, 0);
}

// A row of the new table: head and contents, which end there, then zeros.
fn carry_row(new: &mut [u8], row: &[u8], end: usize)
    requires { (32 ≤ end) × (end ≤ length row.now) × (end ≤ length new.old) }
    ensures { new.new ≡ store former_oldest 0 (part 0 end row.now) ++ zeros (length new.old - end) }
{
    carry_front(&mut new[0..end], &row[0..end]);
    octets::fill(&mut new[end..], 0);
}

// The header of the new table.
fn carry_head(dest: &mut [u8], t: &[u8], form: u8)
    requires { (16 ≤ length dest.old) × (16 ≤ length t.now) }
    ensures { take 16 dest.new ≡ bytes_of 1 form ++ part 1 15 t.now }
{
    copying::copy(&mut dest[0..header::HEADER], &t[0..header::HEADER]);
    octets::store_at(dest, 0, 1, form as u64);
}

// The table of that form.
fn carry_table(dest: &mut [u8], t: &[u8], form: u8)
    requires { Sized t.now × (length dest.old ≡ carried_length form t.now) × (form_of t.now < 4) × (form < 4) }
    ensures { dest.new ≡ carried form t.now }
{
    let file = header::file_length(t);
    let size = table::row_length(t);
    let width = table::size_in(form, 1, file);
    let end = fields::HEAD + file;
    carry_head(dest, t, form);
    for k in 0..header::capacity(t) {
        let from = header::HEADER + k * size;
        let to = header::HEADER + k * width;
        carry_row(&mut dest[to..to + width], &t[from..from + size], end);
    }
}

// A move. Value: the rows used.
pub fn carry(t: &[u8], form: u64, dest: &mut [u8]) -> Result<u32, Refusal>
    ensures { let o = outcome t.now (carry (record { form = form; dest = dest.old })) in (answer_number result ≡ result_of o) × (t.now ≡ o.table) × (dest.new ≡ o.buffer) }
{
    if !wellformed::own_form(t) {
        return Err(Refusal::NotWellFormed);
    }
    let plain = all_plain(t);
    if both(form == 1, !plain) {
        return Err(Refusal::NotPlain);
    }
    if !goes_over(header::form(t) as usize, form as usize) {
        return Err(Refusal::WrongSizes);
    }
    let to = form as u8;
    let width = table::size_in(to, 1, header::file_length(t));
    let end = header::HEADER + header::capacity(t) * width;
    if dest.len() != end {
        return Err(Refusal::WrongSizes);
    }
    carry_table(dest, t, to);
    Ok(header::used(t) as u32)
}
