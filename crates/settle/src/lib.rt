// The set that a call works on: P or R.
#![tactic(auto)]

ghost use Rattle.std.specs.Prelude.{◌≡◌, true, not, cond, ◌&&◌, ◌^◌, ◌<◌, length};
ghost use Rattle.sets.specs.Upto.{Within, count};
ghost use Rattle.sets.specs.Sets.{has};
ghost use Rattle.fields.specs.Layout.{is_empty, used_of, files_of};
ghost use Rattle.counties.specs.Counties.{list_quorum, list_choice};
ghost use Rattle.grouping.specs.Grouped.{frame_by};
ghost use Rattle.grouping.specs.Frames.{FrameOf};
ghost use Rattle.asking.specs.Refusals.{no_number};
ghost use Rattle.settle.specs.Works.{On, Works, Known};

use asking::Refusal;
use bools::both;
use fields::Laid;
use grouping::Frame;
use quorums::Kind;
use rows::RowSet;
use verdicts::{Verdict, asked, judged, quorum_held};

// The set that a call works on: what questions 6 and 7 say of it, its good rows and their version, and how many machines were called.
#[derive(Clone, Copy)]
pub struct Settled {
    pub rows: RowSet,
    pub asked: Result<(), Refusal>,
    pub good: RowSet,
    pub version: u32,
    pub called: u8,
}

fn settled_on(rows: RowSet, asked: Result<(), Refusal>, found: Verdict, called: u8) -> Settled
    ensures on { On rows found called result }
    ensures asked { result.asked ≡ asked }
{
    Settled {
        rows: rows,
        asked: asked,
        good: found.tally.good,
        version: found.tally.version,
        called: called,
    }
}

// P is worked on: the rows that the coordinator chose were called.
fn on_try(tried: RowSet, part: Verdict, chosen: RowSet) -> Settled
    ensures on { On tried part (count 64 (has chosen.bits)) result }
    ensures none { no_number result.asked ≡ 0 }
{
    settled_on(tried, Ok(()), part, chosen.size() as u8)
}

// All rows that answered are worked on, with what questions 6 and 7 say of them: every used row was called.
fn on_all(kind: Kind, frame: &Frame, answering: RowSet, whole: Verdict) -> Settled
    ensures on { On answering whole (length frame.now.chain) result }
    ensures asked { no_number result.asked ≡ cond (not (is_empty whole.force.list) && list_quorum kind (frame_by frame.now.chain frame.now.counties) whole.force.list (has answering.bits)) (cond whole.tally.current 0 7) 6 }
{
    let force = whole.force;
    let no = asked(kind, frame, force.list, answering, whole.tally.current);
    settled_on(answering, no, whole, frame.chain.len() as u8)
}

// The rows that a name chooses over a list: those known, where there are some.
fn chosen_unless(known: RowSet, kind: Kind, frame: &Frame, list: Laid, name: u16) -> RowSet
    requires { (known.bits ≡ 0 → ⊥) → has known.bits ≡ list_choice kind (frame_by frame.now.chain frame.now.counties) list name }
    ensures { has result.bits ≡ list_choice kind (frame_by frame.now.chain frame.now.counties) list name }
{
    if known.bits == 0 {
        return tiers::choice(kind, frame, list, name);
    }
    known
}

// The set that a read or a write of file q works on: P, the coordinator's own choice cut down to the rows that answered, if questions 6 and 7
// are yes for it; otherwise all of them. `known` is the choice where it was made before.
pub fn settle(
    kind: Kind,
    t: &[u8],
    q: usize,
    frame: &Frame,
    c: usize,
    answering: RowSet,
    known: RowSet,
) -> Settled
    requires { FrameOf t.now frame.now × Within (files_of t.now) q × (answering.bits < 2 ^ used_of t.now) × (has answering.bits c ≡ true) × Known kind t.now c known.bits }
    ensures { Works kind t.now q c answering.bits result }
{
    let row = table::row_of(t, c);
    let own = fields::list(row);
    let chosen = chosen_unless(known, kind, frame, own, fields::name(row));
    let tried = chosen.cut(answering);
    // pointer and length of the table, each by itself: loaded as one, they would wait until the stores of the caller are done
    let lent = &t[0..t.len()];
    let part = judged(lent, q, tried);
    if part.tally.current {
        // a choice that answered whole holds a quorum of the list that it was made over; otherwise one is counted
        if both(tried == chosen, part.force.list == own) {
            return on_try(tried, part, chosen);
        }
        if quorum_held(kind, frame, part.force.list, tried) {
            return on_try(tried, part, chosen);
        }
    }
    if tried == answering {
        // P is all that answered: it is not polled again
        return on_all(kind, frame, answering, part);
    }
    on_all(kind, frame, answering, judged(lent, q, answering))
}
