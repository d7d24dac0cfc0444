// A list of rows on two levels: the quorum that a set holds of it, and the choice that a name makes over it.
#![tactic(auto)]

ghost use Rattle.std.specs.Prelude.{◌≡◌, true, ◌&&◌, ℕ, leb, take};
ghost use Rattle.sets.specs.Upto.{Within, some};
ghost use Rattle.sets.specs.Sets.{has};
ghost use Rattle.table.specs.Asked.{Listed};
ghost use Rattle.counties.specs.Levels.{level, level_choice};
ghost use Rattle.counties.specs.Counties.{counties, in_county, list_quorum, list_choice};
ghost use Rattle.grouping.specs.Grouped.{county_by, Apart, frame_by};

use fields::Laid;
use grouping::Frame;
use quorums::Kind;
use rows::RowSet;
use table::Chain;

// The counties in rising order.
fn rising() -> [u8; 64]
    ensures { Listed 8 result 8 × (take 8 result ≡ counties) }
{
    let mut order = [0u8; 64];
    order[0] = 1;
    order[1] = 2;
    order[2] = 3;
    order[3] = 4;
    order[4] = 5;
    order[5] = 6;
    order[6] = 7;
    order[7] = 8;
    order
}

// The counties in which a set holds a quorum.
fn holding(kind: Kind, frame: &Frame, list: Laid, set: RowSet) -> RowSet
    ensures { has result.bits ≡ (λ (j : ℕ). leb 1 j && leb j 8 && level kind list.mark frame.now.chain (in_county (county_by frame.now.counties) (has list.members) j) (has set.bits)) }
{
    let members = RowSet { bits: list.members };
    let mut out = RowSet::EMPTY;
    for k in 0..8 {
        let there = frame.counties.inside(k, members);
        let held = !there.is_empty() && lists::quorum(kind, &frame.chain, list.mark, there, set);
        out = out.add(k, held);
    }
    out
}

// Do the counties of a set form a quorum of those that have members? Where these are the first, each county is its own position.
fn held_above(kind: Kind, mark: u8, up: RowSet, held: RowSet) -> bool
    requires { (j : ℕ) → has up.bits j ≡ true → Within 8 j }
    ensures { result ≡ level kind mark counties (has up.bits) (has held.bits) }
{
    let n = up.size();
    if up == RowSet::first(n) {
        return coterie::holds(kind, grid::of_mark(mark, n), n, held.cut(up));
    }
    let order = rising();
    lists::quorum(kind, &Chain::new(&order, 8), mark, up, held)
}

// Does a set of rows hold a quorum of the list?
pub fn quorum(kind: Kind, frame: &Frame, list: Laid, set: RowSet) -> bool
    ensures { result ≡ list_quorum kind (frame_by frame.now.chain frame.now.counties) list (has set.bits) }
{
    let members = RowSet { bits: list.members };
    if frame.counties.in_one(members) {
        return lists::quorum(kind, &frame.chain, list.mark, members, set);
    }
    let up = frame.counties.having(members);
    let held = holding(kind, frame, list, set);
    held_above(kind, list.mark, up, held)
}

// The rows that a name chooses within the counties of a set.
fn chosen_within(kind: Kind, frame: &Frame, list: Laid, up: RowSet, name: u16) -> RowSet
    ensures { has result.bits ≡ (λ (i : ℕ). some 8 (λ j. has up.bits j && level_choice kind list.mark frame.now.chain (in_county (county_by frame.now.counties) (has list.members) j) name i)) }
{
    let members = RowSet { bits: list.members };
    let mut out = RowSet::EMPTY;
    for k in 0..8 {
        if up.at(k) {
            let there = frame.counties.inside(k, members);
            out = out.joined(lists::choice(kind, &frame.chain, list.mark, there, name));
        }
    }
    out
}

// The counties that a name chooses of those that have members. Where these are the first, each county is its own position.
fn chosen_above(kind: Kind, mark: u8, up: RowSet, name: u16) -> RowSet
    requires { (j : ℕ) → has up.bits j ≡ true → Within 8 j }
    ensures { has result.bits ≡ level_choice kind mark counties (has up.bits) name }
{
    let n = up.size();
    if up == RowSet::first(n) {
        return coterie::choose(kind, grid::of_mark(mark, n), n, name);
    }
    let order = rising();
    lists::choice(kind, &Chain::new(&order, 8), mark, up, name)
}

// The rows that a name chooses over the list.
pub fn choice(kind: Kind, frame: &Frame, list: Laid, name: u16) -> RowSet
    ensures { has result.bits ≡ list_choice kind (frame_by frame.now.chain frame.now.counties) list name }
{
    let members = RowSet { bits: list.members };
    if frame.counties.in_one(members) {
        return lists::choice(kind, &frame.chain, list.mark, members, name);
    }
    let up = chosen_above(kind, list.mark, frame.counties.having(members), name);
    chosen_within(kind, frame, list, up, name)
}
