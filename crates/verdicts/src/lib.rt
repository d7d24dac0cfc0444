// What is found of a set of rows that answered: its good rows, the list in force, and questions 6 and 7.
#![tactic(auto)]

ghost use Rattle.std.specs.Prelude.{◌≡◌, true, not, cond, ◌&&◌, List, ℕ, ◌^◌, ◌<◌, take};
ghost use Rattle.sets.specs.Upto.{Within, lowest};
ghost use Rattle.sets.specs.Sets.{has};
ghost use Rattle.fields.specs.Layout.{is_empty, form_value, form_of, used_of, files_of, list_of};
ghost use Rattle.table.specs.Asked.{Sized, Listed};
ghost use Rattle.counties.specs.Counties.{list_quorum};
ghost use Rattle.grouping.specs.Grouped.{Apart, frame_by};
ghost use Rattle.protocol.specs.Polls.{Poll};
ghost use Rattle.protocol.specs.Calls.{answers};
ghost use Rattle.places.specs.Places.{placed};
ghost use Rattle.polls.specs.Shows.{Shows};
ghost use Rattle.asking.specs.Refusals.{no_number};
ghost use Rattle.verdicts.specs.Judged.{Tallied, Led, Judged};

use asking::Refusal;
use fields::Laid;
use grouping::Frame;
use quorums::Kind;
use rows::RowSet;

// Of a set, by a poll: its good rows, their version, is it current.
#[derive(Clone, Copy)]
pub struct Tally {
    pub good: RowSet,
    pub version: u32,
    pub current: bool,
}

// Of a set: the highest epoch of its rows that have a list, and the list in force, V.
#[derive(Clone, Copy)]
pub struct Force {
    pub epoch: u32,
    pub list: Laid,
}

// Both of a set.
#[derive(Clone, Copy)]
pub struct Verdict {
    pub tally: Tally,
    pub force: Force,
}

// What a poll says of a set of rows.
fn tally_of(poll: &polls::Poll, s: RowSet) -> Tally
    ensures { (p : Poll) → Shows poll.now p → Tallied p (has s.bits) result }
{
    let best = places::best(&poll.versions, s.outside(poll.stale));
    let passed = places::above(&poll.desired, s.cut(poll.stale), best.value);
    Tally {
        good: best.rows,
        version: best.value,
        current: !best.rows.is_empty() && !passed,
    }
}

// The list of the lowest of some rows; none where there is no row.
fn list_of(t: &[u8], leaders: RowSet) -> Laid
    requires { Sized t.now × ((i : ℕ) → has leaders.bits i ≡ true → Within (used_of t.now) i) }
    ensures { result ≡ list_of t.now (lowest 64 (has leaders.bits)) }
{
    let leader = leaders.lowest();
    if leader == 0 {
        return Laid::NONE;
    }
    fields::list(table::row_of(t, leader))
}

// The highest epoch of some rows, and the list of the lowest that has it.
fn lead(t: &[u8], epochs: &[u32; 64], s: RowSet) -> Force
    requires { Sized t.now × ((i : ℕ) → has s.bits i ≡ true → Within (used_of t.now) i) }
    ensures { Led t.now (placed epochs.now) (has s.bits) result }
{
    let latest = places::best(epochs, s);
    Force {
        epoch: latest.value,
        list: list_of(t, latest.rows),
    }
}

// What a poll of a set of rows says of it. Rows without a list are passed over in finding the highest epoch.
fn told(t: &[u8], poll: &polls::Poll, s: RowSet) -> Verdict
    requires { Sized t.now × (s.bits < 2 ^ used_of t.now) }
    ensures { (q : ℕ) → Shows poll.now (answers t.now q s.bits) → Judged (answers t.now q s.bits) (has s.bits) result }
{
    let tally = tally_of(poll, s);
    let force = lead(t, &poll.epochs, s.cut(poll.listed));
    Verdict {
        tally: tally,
        force: force,
    }
}

// What a poll of a set of rows says of it in file q.
pub fn judged(t: &[u8], q: usize, s: RowSet) -> Verdict
    requires { Sized t.now × (form_of t.now ≡ form_value) × Within (files_of t.now) q × (s.bits < 2 ^ used_of t.now) }
    ensures { Judged (answers t.now q s.bits) (has s.bits) result }
{
    told(t, &polls::gather(t, q, s), s)
}

// The same but for the list in force, which is that of any other file.
pub fn tallied(t: &[u8], q: usize, s: RowSet) -> Tally
    requires { Sized t.now × (form_of t.now ≡ form_value) × Within (files_of t.now) q × (s.bits < 2 ^ used_of t.now) }
    ensures { Tallied (answers t.now q s.bits) (has s.bits) result }
{
    tally_of(&polls::gather(t, q, s), s)
}

// Question 6: does a set hold a quorum of a list? Of an empty one none does.
pub fn quorum_held(kind: Kind, frame: &Frame, list: Laid, s: RowSet) -> bool
    ensures { result ≡ (not (is_empty list) && list_quorum kind (frame_by frame.now.chain frame.now.counties) list (has s.bits)) }
{
    !list.is_empty() && tiers::quorum(kind, frame, list, s)
}

// Questions 6 and 7 of a set, by the list in force and by whether the set is current.
pub fn asked(kind: Kind, frame: &Frame, list: Laid, s: RowSet, current: bool) -> Result<(), Refusal>
    ensures { no_number result ≡ cond (not (is_empty list) && list_quorum kind (frame_by frame.now.chain frame.now.counties) list (has s.bits)) (cond current 0 7) 6 }
{
    if !quorum_held(kind, frame, list, s) {
        return Err(Refusal::NoQuorum);
    }
    if current {
        Ok(())
    } else {
        Err(Refusal::NotCurrent)
    }
}
