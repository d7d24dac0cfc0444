// A level: members in chain order, laid in one grid; the quorum that a set holds of it, and the choice that a name makes over it.
#![tactic(auto)]

ghost use Rattle.std.specs.Prelude.{◌≡◌, true, ◌&&◌, cond, ℕ, ◌+◌, ◌*◌, ◌/◌, ◌^◌, ◌≤◌, ◌<◌, min, eqb, leb, length, get_or, take};
ghost use Rattle.sets.specs.Upto.{Within, some, upward};
ghost use Rattle.sets.specs.Sets.{has};
ghost use Rattle.table.specs.Asked.{Listed};
ghost use Rattle.counties.specs.Levels.{seats, at_seat, level, level_choice};

use bools::both;
use octets::joined;
use quorums::Kind;
use rows::RowSet;
use table::Chain;

// Where `counts` holds, a set of positions, each moved up by one, with position 1 in it where b holds; the set as it is otherwise.
fn pushed(set: RowSet, counts: bool, b: bool) -> RowSet
    requires { set.bits < 2 ^ 63 }
    ensures { result.bits ≡ cond counts (2 * set.bits + cond b 1 0) set.bits }
{
    if counts {
        let moved = 2 * set.bits;
        return RowSet {
            bits: if b { moved + 1 } else { moved },
        };
    }
    set
}

// Where `counts` holds, a set of positions without the first, each moved down by one; the set as it is otherwise.
fn popped(set: RowSet, counts: bool) -> RowSet
    ensures { result.bits ≡ cond counts (set.bits / 2) set.bits }
{
    if counts {
        return RowSet { bits: set.bits / 2 };
    }
    set
}

// Rows 1 to 64.
fn rows_in_turn() -> [u8; 64]
    ensures { result ≡ upward 64 1 }
{
    *b"\x01\x02\x03\x04\x05\x06\x07\x08\x09\x0a\x0b\x0c\x0d\x0e\x0f\x10\x11\x12\x13\x14\x15\x16\x17\x18\x19\x1a\x1b\x1c\x1d\x1e\x1f\x20\x21\x22\x23\x24\x25\x26\x27\x28\x29\x2a\x2b\x2c\x2d\x2e\x2f\x30\x31\x32\x33\x34\x35\x36\x37\x38\x39\x3a\x3b\x3c\x3d\x3e\x3f\x40"
}

// Does an order go from row to row, so that each place that has a row has its own? It looks at all 64 without a branch: so it takes many at a time.
fn straight(order: &[u8; 64]) -> bool
    requires { length order.now ≡ 64 }
    ensures { result ≡ true → (k : ℕ) → k < 64 → 1 ≤ get_or order.now k 0 → get_or order.now k 0 ≡ k + 1 }
{
    let rows = rows_in_turn();
    let mut bits: u8 = 0;
    for k in 0..64 {
        let row = order[k];
        bits = joined(bits, row.min(row ^ rows[k]));
    }
    bits == 0
}

// The positions of a list at which a set of rows sits, by any order; the last row of the chain is looked at first.
fn held(chain: &Chain, members: RowSet, set: RowSet) -> RowSet
    ensures { has result.bits ≡ at_seat (seats chain.now (has members.bits)) (has set.bits) }
{
    let mut positions = RowSet::EMPTY;
    for j in (0..chain.len()).rev() {
        let place = chain.place_at(j);
        positions = pushed(positions, members.at(place), set.at(place));
    }
    positions
}

// The same where the order is rows 1 to `count`: the members alone are gone through; a list of all these rows needs no walk.
fn held_straight(count: usize, members: RowSet, set: RowSet) -> RowSet
    requires { count ≤ 64 }
    ensures { has result.bits ≡ at_seat (seats (upward count 1) (has members.bits)) (has set.bits) }
{
    let all = RowSet::first(count);
    if members == all {
        return set.cut(all);
    }
    let mut positions = RowSet::EMPTY;
    // the position of the next member
    let mut k = 0;
    for i in members.cut(all).members() {
        positions = positions.add(k, set.at(i - 1));
        k += 1;
    }
    positions
}

// The positions of a list at which a set of rows sits. From 16 rows on it is asked how the order goes.
fn held_positions(chain: &Chain, members: RowSet, set: RowSet) -> RowSet
    ensures { has result.bits ≡ at_seat (seats chain.now (has members.bits)) (has set.bits) }
{
    if 16 <= chain.len() {
        if straight(chain.rows()) {
            return held_straight(chain.len(), members, set);
        }
    }
    held(chain, members, set)
}

// The rows at some positions of the chain.
fn standing(chain: &Chain, positions: RowSet) -> RowSet
    ensures { has result.bits ≡ (λ (i : ℕ). some 64 (λ k. has positions.bits k && at_seat chain.now (eqb i) k)) }
{
    let mut set = RowSet::EMPTY;
    for i in positions.cut(RowSet::first(chain.len())).members() {
        set = set.add(chain.place_at(i - 1), true);
    }
    set
}

// The members of a list at some positions of it, by any order.
fn seated(chain: &Chain, members: RowSet, positions: RowSet) -> RowSet
    ensures { has result.bits ≡ (λ (i : ℕ). some 64 (λ k. has positions.bits k && at_seat (seats chain.now (has members.bits)) (eqb i) k)) }
{
    let mut set = RowSet::EMPTY;
    // the positions ahead, the next one first
    let mut left = positions;
    for j in 0..chain.len() {
        let place = chain.place_at(j);
        let member = members.at(place);
        set = set.add(place, both(member, left.at(0)));
        left = popped(left, member);
    }
    set
}

// The same where the order is rows 1 to `count`: the members alone are gone through.
fn seated_straight(count: usize, members: RowSet, positions: RowSet) -> RowSet
    requires { count ≤ 64 }
    ensures { has result.bits ≡ (λ (i : ℕ). some 64 (λ k. has positions.bits k && at_seat (seats (upward count 1) (has members.bits)) (eqb i) k)) }
{
    let mut set = RowSet::EMPTY;
    // the positions ahead, the next one first
    let mut ahead = positions;
    for i in members.cut(RowSet::first(count)).members() {
        set = set.add(i - 1, ahead.at(0));
        ahead = popped(ahead, true);
    }
    set
}

// The members of a list at some positions of it. From 16 rows on it is asked how the order goes.
fn seated_members(chain: &Chain, members: RowSet, positions: RowSet) -> RowSet
    ensures { has result.bits ≡ (λ (i : ℕ). some 64 (λ k. has positions.bits k && at_seat (seats chain.now (has members.bits)) (eqb i) k)) }
{
    if 16 <= chain.len() {
        if straight(chain.rows()) {
            return seated_straight(chain.len(), members, positions);
        }
    }
    seated(chain, members, positions)
}

// The members, if one of them stands in the order; none otherwise.
fn lone(chain: &Chain, members: RowSet) -> RowSet
    ensures { has result.bits ≡ (λ (i : ℕ). has members.bits i && leb 1 (length (seats chain.now (has members.bits)))) }
{
    for j in 0..chain.len() {
        if members.at(chain.place_at(j)) {
            return members;
        }
    }
    RowSet::EMPTY
}

// Does a set hold a quorum of the members, laid by the mark? One member needs no grid.
pub fn quorum(kind: Kind, chain: &Chain, mark: u8, members: RowSet, set: RowSet) -> bool
    ensures { result ≡ level kind mark chain.now (has members.bits) (has set.bits) }
{
    if members.rest().is_empty() {
        return !lone(chain, members).cut(set).is_empty();
    }
    let length = members.size();
    coterie::holds(
        kind,
        grid::of_mark(mark, length),
        length,
        held_positions(chain, members, set),
    )
}

// The members that a name chooses, laid by the mark. One member needs no grid.
pub fn choice(kind: Kind, chain: &Chain, mark: u8, members: RowSet, name: u16) -> RowSet
    ensures { has result.bits ≡ level_choice kind mark chain.now (has members.bits) name }
{
    if members.rest().is_empty() {
        return lone(chain, members);
    }
    let length = members.size();
    let chosen = coterie::choose(kind, grid::of_mark(mark, length), length, name);
    if members.fills(chain.len()) {
        // members that are rows 1 to `count` have the order of the chain
        return standing(chain, chosen);
    }
    seated_members(chain, members, chosen)
}
