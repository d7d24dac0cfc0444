// Arrays with a place for each of the 64 rows: what the rows of a set have.
#![tactic(auto)]

ghost use Rattle.std.specs.Prelude.{◌≡◌, ◌&&◌, ltb};
ghost use Rattle.sets.specs.Upto.{some};
ghost use Rattle.sets.specs.Sets.{has};
ghost use Rattle.places.specs.Places.{placed, Tops, Better, Behind};

use rows::RowSet;

// The highest value, and the rows that have it.
#[derive(Clone, Copy)]
pub struct Top {
    pub value: u32,
    pub rows: RowSet,
}

impl Top {
    // Of no rows.
    const NONE: Top = Top {
        value: 0,
        rows: RowSet::EMPTY,
    };
}

// The best of some rows and of one row more, which has v.
fn better(b: Top, v: u32, one: RowSet) -> Top
    ensures { Better b v (has one.bits) result }
{
    if b.value < v {
        return Top {
            value: v,
            rows: one,
        };
    }
    if v == b.value {
        return Top {
            value: v,
            rows: b.rows.joined(one),
        };
    }
    b
}

// What is left of some rows behind the first of them that have v. It returns the set that the walk has left, which an iterator would keep to itself.
fn behind(values: &[u32; 64], s: RowSet, v: u32) -> RowSet
    ensures { Behind (placed values.now) v s.bits result.bits }
{
    let mut left = s;
    while !left.is_empty() {
        if values[left.lowest() - 1] != v {
            return left;
        }
        left = left.rest();
    }
    left
}

// The highest value over the rows of a set, and its rows that have it; 0 where it is empty. Most often all have what the first has, and are
// passed over by one test each.
pub fn best(values: &[u32; 64], s: RowSet) -> Top
    ensures { Tops (has s.bits) (placed values.now) result }
{
    if s.is_empty() {
        return Top::NONE;
    }
    let first = values[s.lowest() - 1];
    let left = behind(values, s.rest(), first);
    let mut b = Top {
        value: first,
        rows: s.outside(left),
    };
    for i in left.members() {
        let k = i - 1;
        b = better(b, values[k], RowSet::EMPTY.add(k, true));
    }
    b
}

// Has some row of a set more than v?
pub fn above(values: &[u32; 64], s: RowSet, v: u32) -> bool
    ensures { result ≡ some 64 (λ i. has s.bits i && ltb v (placed values.now i)) }
{
    v < best(values, s).value
}
