// The rows of each county, as eight sets: the members in a county, the counties that have some, and the mark of a list.
#![tactic(auto)]

ghost use Rattle.std.specs.Prelude.{◌≡◌, true, List, ℕ, ◌+◌, ◌≤◌, ◌<◌, length, get_or, take};
ghost use Rattle.sets.specs.Upto.{Within};
ghost use Rattle.sets.specs.Sets.{has};
ghost use Rattle.fields.specs.Layout.{get, county, used_of, row_length, row_bytes};
ghost use Rattle.table.specs.Asked.{Sized, Linked, Listed};
ghost use Rattle.counties.specs.Counties.{county_at, in_county, has_members, several};
ghost use Rattle.counties.specs.Marks.{mark_now, laid_now, mark_right};
ghost use Rattle.counties.specs.Claims.{InOne};
ghost use Rattle.grouping.specs.Grouped.{county_by, Apart, Filled, Grouped, frame_by};

use bools::{any, both};
use fields::Laid;
use rows::RowSet;
use std::marker::Model;
use table::Chain;

// Row k + 1 put into the set of its county; before counties came it has none.
pub fn put(sets: &mut [u64; 8], k: usize, county: u8)
    requires { (k < 64) × (county ≤ 8) }
    ensures { (c : ℕ → ℕ) → c (k + 1) ≡ county → Filled c k sets.old → Filled c (k + 1) sets.new }
{
    if county != 0 {
        let j = county as usize - 1;
        let set = RowSet { bits: sets[j] };
        let grown = set.add(k, true);
        sets[j] = grown.bits;
    }
}

// Have all used rows this county? None ends it, so no row waits for another.
fn all_in(t: &[u8], size: usize, used: usize, which: u8) -> bool
    requires { Sized t.now × (size ≡ row_length t.now) × (used ≡ used_of t.now) }
    ensures { result ≡ true → (i : ℕ) → Within (used_of t.now) i → which ≡ get county (row_bytes t.now i) }
{
    let mut same = true;
    for k in 0..used {
        let own = fields::county(table::row_at(t, size, k + 1));
        same = both(same, own == which);
    }
    same
}

// The first rows, all in one county.
fn whole(sets: &mut [u64; 8], used: usize, county: u8)
    requires { county ≤ 8 }
    ensures { used ≤ 64 → Filled (λ i. county) used sets.new }
{
    *sets = [0u64; 8];
    if county == 0 {
        return;
    }
    let rows = RowSet::first(used);
    sets[county as usize - 1] = rows.bits;
}

// The used rows by their counties; those of one county at once.
pub fn group(t: &[u8], sets: &mut [u64; 8])
    requires { Linked t.now }
    ensures { Grouped t.now sets.new }
{
    let size = table::row_length(t);
    let used = header::used(t);
    let first = fields::county(table::row_at(t, size, 1));
    if all_in(t, size, used, first) {
        whole(sets, used, first);
        return;
    }
    *sets = [0u64; 8];
    for k in 0..used {
        let county = fields::county(table::row_at(t, size, k + 1));
        put(sets, k, county);
    }
}

// The rows of which each has one of these counties, row 1 the first.
pub fn of_places(places: &[u8]) -> [u64; 8]
    requires { (length places.now ≤ 64) × ((k : ℕ) → k < length places.now → get_or places.now k 0 ≤ 8) }
    ensures { Apart result × (county_by result ≡ county_at places.now) }
{
    let mut sets = [0u64; 8];
    for (k, county) in places.iter().enumerate() {
        put(&mut sets, k, *county);
    }
    sets
}

// The mark of a list of `length` members that is laid now, in a tall table or in a wide one.
fn mark_now(tall: bool, many: bool, length: usize) -> u8
    ensures { result ≡ mark_now tall many length }
{
    if many {
        return if tall { 2 } else { 3 };
    }
    grid::new_mark(tall, length)
}

// The counties of rows: eight sets in an array, that of county 1 first. No row is in two of them.
#[derive(Drop)]
pub struct Counties<'a> {
    sets: &'a [u64; 8],
}

impl<'a> Model for Counties<'a> {
    ghost Value = { List ℕ };

    ghost view = { λ c. c.sets.now };

    ghost invariant = { λ c. Apart c.sets.now };
}

impl<'a> Counties<'a> {
    pub fn new(sets: &'a [u64; 8]) -> Counties<'a>
        requires { Apart sets.now }
        ensures { result ≡ sets.now }
    {
        Counties { sets: sets }
    }

    // The members in county k + 1.
    pub fn inside(&self, k: usize, members: RowSet) -> RowSet
        requires { k < 8 }
        ensures { has result.bits ≡ in_county (county_by self.now) (has members.bits) (k + 1) }
    {
        members.cut(RowSet { bits: self.sets[k] })
    }

    // Are all members in one county? Of county 1 it takes one comparison to know.
    pub fn in_one(&self, members: RowSet) -> bool
        ensures { result ≡ true → InOne (county_by self.now) (has members.bits) }
    {
        for k in 0..8 {
            let there = self.inside(k, members);
            if there.bits == members.bits {
                return true;
            }
        }
        false
    }

    // The counties that have members.
    pub fn having(&self, members: RowSet) -> RowSet
        ensures { has result.bits ≡ has_members (county_by self.now) (has members.bits) }
    {
        let mut out = RowSet::EMPTY;
        for k in 0..8 {
            let there = self.inside(k, members);
            out = out.add(k, !there.is_empty());
        }
        out
    }

    // Are they of more than one county?
    pub fn several(&self, members: RowSet) -> bool
        ensures { result ≡ several (county_by self.now) (has members.bits) }
    {
        !self.in_one(members) && 1 < self.having(members).size()
    }

    // The list that a founding or a check lays of these rows, in a tall table or in a wide one.
    pub fn laid_now(&self, tall: bool, set: RowSet) -> Laid
        ensures { result ≡ laid_now tall (county_by self.now) set.bits }
    {
        Laid {
            members: set.bits,
            mark: mark_now(tall, self.several(set), set.size()),
        }
    }

    // Question 1 of a list by itself: has it a mark that a list of these members can have?
    pub fn mark_right(&self, list: Laid) -> bool
        ensures { result ≡ mark_right (county_by self.now) list }
    {
        let members = RowSet { bits: list.members };
        if self.several(members) {
            return list.mark == 3 || list.mark == 2;
        }
        grid::mark_fits(list.mark, members.size())
    }
}

// What is known of all rows, whether they answer or not: their chain order and their counties.
#[derive(Drop)]
pub struct Frame<'a> {
    pub chain: Chain<'a>,
    pub counties: Counties<'a>,
}

impl<'a> Frame<'a> {
    pub fn new(order: &'a [u8; 64], n: usize, sets: &'a [u64; 8]) -> Frame<'a>
        requires { Listed n order.now n × Apart sets.now }
        ensures { result ≡ record { chain = take n order.now; counties = sets.now } }
    {
        Frame {
            chain: Chain::new(order, n),
            counties: Counties::new(sets),
        }
    }
}
