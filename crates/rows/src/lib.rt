// A set of rows: bit i - 1 for row i, rows 1 to 64. Positions and columns of a grid count the same way.
#![tactic(auto)]

ghost use Rattle.std.specs.Prelude.{◌≡◌, cond, not, ◌+◌, ◌-◌, ◌%◌, ◌≤◌};
ghost use Rattle.sets.specs.Upto.{every, some, count, lowest};
ghost use Rattle.sets.specs.Sets.{has, first_rows, gaining, losing, cut_to, left_of, joining};

#[derive(Clone, Copy, PartialEq, Eq)]
pub struct RowSet {
    pub bits: u64,
}

impl RowSet {
    // The empty set.
    pub const EMPTY: RowSet = RowSet { bits: 0 };

    // The set of the first n rows; all 64 where n is more.
    pub fn first(n: usize) -> RowSet
        ensures { has result.bits ≡ first_rows n }
    {
        if 64 <= n {
            return RowSet {
                bits: 0xffff_ffff_ffff_ffff,
            };
        }
        RowSet { bits: (1 << n) - 1 }
    }

    // Is row i a member? What is no row is in no set.
    pub fn has(self, i: usize) -> bool
        ensures { result ≡ has self.bits i }
    {
        if i == 0 {
            return false;
        }
        if 64 < i {
            return false;
        }
        (self.bits >> (i - 1)) % 2 == 1
    }

    // The set with row i; the set itself where i is no row.
    pub fn with(self, i: usize) -> RowSet
        ensures { has result.bits ≡ gaining (has self.bits) i }
    {
        if i == 0 {
            return self;
        }
        if 64 < i {
            return self;
        }
        RowSet {
            bits: self.bits | 1 << (i - 1),
        }
    }

    // The set without row i.
    pub fn without(self, i: usize) -> RowSet
        ensures { has result.bits ≡ losing (has self.bits) i }
    {
        if i == 0 {
            return self;
        }
        if 64 < i {
            return self;
        }
        RowSet {
            bits: self.bits ^ (self.bits & 1 << (i - 1)),
        }
    }

    // The set cut down to another.
    pub fn cut(self, other: RowSet) -> RowSet
        ensures { has result.bits ≡ cut_to (has self.bits) (has other.bits) }
    {
        RowSet {
            bits: self.bits & other.bits,
        }
    }

    // How many members it has.
    pub fn size(self) -> usize
        ensures { result ≡ count 64 (has self.bits) }
    {
        self.bits.count_ones() as usize
    }

    // Its lowest member; 0, which is no row, where it has none.
    pub fn lowest(self) -> usize
        ensures { result ≡ lowest 64 (has self.bits) }
    {
        if self.bits == 0 {
            return 0;
        }
        self.bits.trailing_zeros() as usize + 1
    }

    // The set with row i where `wanted` says so: a loop that gathers a set needs no branch.
    pub fn gain(self, i: usize, wanted: bool) -> RowSet
        ensures { has result.bits ≡ cond wanted (gaining (has self.bits) i) (has self.bits) }
    {
        if wanted { self.with(i) } else { self }
    }

    // Are all of the rows 1 to n members? (There is no row above 64.)
    pub fn fills(self, n: usize) -> bool
        ensures { result ≡ every n (has self.bits) }
    {
        if 64 < n {
            return false;
        }
        let all = RowSet::first(n);
        self.bits & all.bits == all.bits
    }

    // The set without the rows of another.
    pub fn outside(self, other: RowSet) -> RowSet
        ensures { has result.bits ≡ left_of (has self.bits) (has other.bits) }
    {
        RowSet {
            bits: self.bits ^ (self.bits & other.bits),
        }
    }

    // The members of either set.
    pub fn joined(self, other: RowSet) -> RowSet
        ensures { has result.bits ≡ joining (has self.bits) (has other.bits) }
    {
        RowSet {
            bits: self.bits | other.bits,
        }
    }

    // The set without its lowest member; a smaller number, where it has one.
    pub fn rest(self) -> RowSet
        ensures { (has result.bits ≡ losing (has self.bits) (lowest 64 (has self.bits))) × (result.bits ≤ self.bits - 1) }
    {
        if self.bits == 0 {
            return self;
        }
        RowSet {
            bits: self.bits & (self.bits - 1),
        }
    }

    // Is the row at place k a member? Places count from 0, and 64 is place 0 again: there is nothing to test.
    pub fn at(self, k: usize) -> bool
        ensures { result ≡ has self.bits (k % 64 + 1) }
    {
        (self.bits >> (k % 64)) % 2 == 1
    }

    // The set with the row at place k where `wanted` says so.
    pub fn add(self, k: usize, wanted: bool) -> RowSet
        ensures { has result.bits ≡ cond wanted (gaining (has self.bits) (k % 64 + 1)) (has self.bits) }
    {
        RowSet {
            bits: self.bits | u64::from(wanted) << (k % 64),
        }
    }

    // Its members, the lowest first.
    pub fn members(self) -> Members
        ensures { result ≡ record { left = self } }
    {
        Members { left: self }
    }

    // Has it no member?
    pub fn is_empty(self) -> bool
        ensures { result ≡ not (some 64 (has self.bits)) }
    {
        self.bits == 0
    }
}

// The members of a set, the lowest first.
#[derive(Clone, Copy)]
pub struct Members {
    pub left: RowSet,
}

impl Iterator for Members {
    type Item = usize;

    ghost use Rattle.std.specs.Iterator.{at_most};
    ghost use Rattle.rows.specs.Members.{TakesLowest};

    ghost next_gives = { TakesLowest };

    ghost remaining = { λ m. at_most m.left.bits };

    fn next(&mut self) -> Option<usize> {
        if self.left.is_empty() {
            return None;
        }
        let i = self.left.lowest();
        self.left = self.left.rest();
        Some(i)
    }
}
