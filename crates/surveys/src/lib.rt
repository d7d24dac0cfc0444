// What a check finds of the set that answered: has it the whole list in force, does it hold a quorum, is it current in every file.
#![tactic(auto)]

ghost use Rattle.std.specs.Prelude.{◌≡◌, true, not, ◌&&◌, ◌||◌, ℕ, ◌^◌, ◌<◌};
ghost use Rattle.sets.specs.Upto.{some};
ghost use Rattle.sets.specs.Sets.{has};
ghost use Rattle.quorums.specs.declared.Kind.TheVariants.{Write};
ghost use Rattle.fields.specs.Layout.{is_empty, form_value, form_of, used_of};
ghost use Rattle.table.specs.Asked.{Sized};
ghost use Rattle.counties.specs.Counties.{list_quorum};
ghost use Rattle.grouping.specs.Grouped.{frame_by};
ghost use Rattle.protocol.specs.Calls.{answers};
ghost use Rattle.verdicts.specs.Judged.{Tallied};
ghost use Rattle.surveys.specs.Surveyed.{Surveyed};

use bools::both;
use enroll::FileState;
use fields::Laid;
use grouping::Frame;
use quorums::Kind;
use rows::RowSet;
use verdicts::{Tally, quorum_held, tallied};

// Has a set every member of a list that has one? Then it holds a quorum of that.
pub fn has_whole(s: RowSet, list: Laid) -> bool
    ensures { result ≡ true → (some 64 (has list.members) ≡ true) × ((i : ℕ) → has list.members i ≡ true → has s.bits i ≡ true) }
{
    let members = RowSet { bits: list.members };
    both(!members.is_empty(), members.outside(s).is_empty())
}

// Question 6 of a set; it is not asked where its answer is known.
pub fn held_unless(known: bool, frame: &Frame, list: Laid, s: RowSet) -> bool
    ensures { result ≡ (known || (not (is_empty list) && list_quorum Write (frame_by frame.now.chain frame.now.counties) list (has s.bits))) }
{
    known || quorum_held(Kind::Write, frame, list, s)
}

// What is found of a set in each file: its good rows and their version; and is it current for every file? Place q − 1 is for file q.
#[derive(Clone, Copy)]
pub struct Survey {
    pub files: [FileState; 8],
    pub current: bool,
}

// What is found in a file.
fn state_of(found: Tally) -> FileState
    ensures { result ≡ record { good = found.good; version = found.version } }
{
    FileState {
        good: found.good,
        version: found.version,
    }
}

// `first` is what is found in file 1.
pub fn look_through(t: &[u8], s: RowSet, first: Tally) -> Survey
    requires { Sized t.now × (form_of t.now ≡ form_value) × (s.bits < 2 ^ used_of t.now) × Tallied (answers t.now 1 s.bits) (has s.bits) first }
    ensures { Surveyed t.now s.bits result }
{
    let n = header::files(t);
    let mut files = [state_of(first); 8];
    let mut all = first.current;
    for k in 1..n {
        let found = tallied(t, k + 1, s);
        files[k] = state_of(found);
        all = both(all, found.current);
    }
    Survey {
        files: files,
        current: all,
    }
}
