// An epoch check: its questions in order, then what is done.
#![tactic(auto)]

ghost use Rattle.std.specs.Prelude.{◌≡◌};
ghost use Rattle.asking.specs.Refusals.{answer_number};
ghost use Rattle.protocol.specs.Calls.{result_of, outcome, check};

use asking::Refusal;
use grouping::Frame;
use questions::{below_limit, coordinator_asked};
use rows::RowSet;
use surveys::{has_whole, held_unless, look_through};
use verdicts::judged;
use wellformed::ordered;

// An epoch check: the rows that answered become the list of a new epoch, and the counts of the sheet 0, unless they are the list in force.
// Value: the epoch number in force.
pub fn check(t: &mut [u8], c: usize, r: u64, sheet: &mut [u8]) -> Result<u32, Refusal>
    ensures { let o = outcome t.old (check (record { c = c; r = r; sheet = sheet.old })) in (answer_number result ≡ result_of o) × (t.new ≡ o.table) × (sheet.new ≡ o.sheet) }
{
    if !sheets::is_right(sheet) {
        return Err(Refusal::NotWellFormed);
    }
    let mut order = [0u8; 64];
    let mut sets = [0u64; 8];
    if !ordered(t, &mut order, &mut sets) {
        return Err(Refusal::NotWellFormed);
    }
    let answering = RowSet { bits: r };
    coordinator_asked(t, c, answering)?;
    // lists and epochs are the same whatever the file
    let v = judged(t, 1, answering);
    // a whole list holds a quorum of itself
    if v.force.list.members == r {
        return Ok(v.force.epoch);
    }
    let whole = has_whole(answering, v.force.list);
    let frame = Frame::new(&order, header::used(t), &sets);
    if !held_unless(whole, &frame, v.force.list, answering) {
        return Err(Refusal::NoQuorum);
    }
    let found = look_through(t, answering, v.tally);
    if !found.current {
        return Err(Refusal::NotCurrent);
    }
    if !below_limit(v.force.epoch) {
        return Err(Refusal::AtLimit);
    }
    let epoch = v.force.epoch + 1;
    let tall = v.force.list.is_tall();
    let list = frame.counties.laid_now(tall, answering);
    enroll::check_rows(t, answering, &found.files, epoch, list);
    sheets::clear(sheet);
    Ok(epoch)
}
