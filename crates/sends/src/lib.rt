// A send: its questions in order, then what is done.
#![tactic(auto)]

ghost use Rattle.std.specs.Prelude.{◌≡◌, not, cond, ◌&&◌, ◌≤◌, eqb, leb, length};
ghost use Rattle.fields.specs.Layout.{get, mark, version, desired};
ghost use Rattle.table.specs.WellFormed.{between, only_rows};
ghost use Rattle.asking.specs.Asking.{first_no};
ghost use Rattle.asking.specs.Refusals.{no_number, answer_number};
ghost use Rattle.protocol.specs.Calls.{questions, result_of, outcome, send};

use asking::Refusal;
use questions::in_group;
use rows::RowSet;
use values::between;

// Question 2 of a send: are these two used rows, and are those that answered used ones?
fn rows_named(used: usize, from: usize, to: usize, answering: RowSet) -> bool
    requires { used ≤ 64 }
    ensures { result ≡ (between 1 from used && between 1 to used && only_rows used answering.bits && not (eqb from to)) }
{
    between(1, from, used)
        && between(1, to, used)
        && values::only_rows(used, answering.bits)
        && from != to
}

// Questions 9 and 10 of the copies of a send.
fn copies_asked(source: &[u8], target: &[u8]) -> Result<(), Refusal>
    requires { (12 ≤ length source.now) × (12 ≤ length target.now) }
    ensures { no_number result ≡ cond (not (eqb (get mark source.now) 1)) (cond (eqb (get mark target.now) 1 && leb (get desired target.now) (get version source.now)) 0 10) 9 }
{
    if fields::is_stale(source) {
        return Err(Refusal::StaleSource);
    }
    if fields::is_stale(target) && fields::desired(target) <= fields::version(source) {
        Ok(())
    } else {
        Err(Refusal::NotWaiting)
    }
}

// All that a send of file q is asked.
fn send_asked(t: &[u8], from: usize, to: usize, answering: RowSet, q: usize) -> Result<(), Refusal>
    ensures { no_number result ≡ first_no (questions t.now (send (record { f = from; t = to; r = answering.bits; file = q }))) }
{
    if !wellformed::well_formed(t) {
        return Err(Refusal::NotWellFormed);
    }
    if !rows_named(header::used(t), from, to, answering) {
        return Err(Refusal::UnknownRow);
    }
    if !(answering.has(from) && answering.has(to)) {
        return Err(Refusal::NotAnswering);
    }
    if !in_group(t, q) {
        return Err(Refusal::UnknownFile);
    }
    copies_asked(table::copy_of(t, from, q), table::copy_of(t, to, q))
}

// A send of a file: row `to` takes the contents and the version of row `from`. Value: that version.
pub fn send(t: &mut [u8], from: usize, to: usize, r: u64, file: u64) -> Result<u32, Refusal>
    ensures { let o = outcome t.old (send (record { f = from; t = to; r = r; file = file })) in (answer_number result ≡ result_of o) × (t.new ≡ o.table) }
{
    let q = file as usize;
    send_asked(t, from, to, RowSet { bits: r }, q)?;
    let version = fields::version(table::copy_of(t, from, q));
    renew::refresh(t, q, from, to);
    Ok(version)
}
