// What the rows that answered say of a file.
#![tactic(auto)]

ghost use Rattle.std.specs.Prelude.{◌≡◌, ◌^◌, ◌<◌};
ghost use Rattle.sets.specs.Upto.{Within};
ghost use Rattle.sets.specs.Sets.{has};
ghost use Rattle.fields.specs.Layout.{form_value, form_of, used_of, files_of};
ghost use Rattle.table.specs.Asked.{Sized};
ghost use Rattle.protocol.specs.Polls.{polled};
ghost use Rattle.polls.specs.Shows.{Shows};

use rows::RowSet;

// The state gathered by a poll: a place for each of the 64 rows, 0 for rows that did not answer; which rows are stale, and which have a list.
#[derive(Clone, Copy)]
pub struct Poll {
    pub stale: RowSet,
    pub listed: RowSet,
    pub versions: [u32; 64],
    pub desired: [u32; 64],
    pub epochs: [u32; 64],
}

// What the rows that answered say of file q. The sets are stored behind the loop.
pub fn gather(t: &[u8], q: usize, answering: RowSet) -> Poll
    requires { Sized t.now × (form_of t.now ≡ form_value) × Within (files_of t.now) q × (answering.bits < 2 ^ used_of t.now) }
    ensures { Shows result (polled t.now q (has answering.bits)) }
{
    let mut p = Poll {
        stale: RowSet::EMPTY,
        listed: RowSet::EMPTY,
        versions: [0u32; 64],
        desired: [0u32; 64],
        epochs: [0u32; 64],
    };
    let mut stale = RowSet::EMPTY;
    let mut listed = RowSet::EMPTY;
    for i in answering.members() {
        let row = table::row_of(t, i);
        let copy = table::copy_of(t, i, q);
        let list = fields::list(row);
        stale = stale.gain(i, fields::is_stale(copy));
        listed = listed.gain(i, !list.is_empty());
        let k = i - 1;
        p.versions[k] = fields::version(copy);
        p.desired[k] = fields::desired(copy);
        p.epochs[k] = fields::epoch(row);
    }
    p.stale = stale;
    p.listed = listed;
    p
}
