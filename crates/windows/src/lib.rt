// Question 1 of a window: its chain, and its records.
#![tactic(auto)]

ghost use Rattle.std.specs.Prelude.{◌≡◌, true, cond, ◌&&◌, Some, None, ◌+◌, ◌*◌, ◌≤◌, min, eqb, length, get_or, drop};
ghost use Rattle.sets.specs.Upto.{Within, every, count};
ghost use Rattle.sets.specs.Sets.{has};
ghost use Rattle.octets.specs.Bytes.{all_zero};
ghost use Rattle.blocks.specs.Blocks.{block};
ghost use Rattle.fields.specs.Layout.{get};
ghost use Rattle.window.specs.Windows.{younger, path, window_right};
ghost use Rattle.windows.specs.Visits.{window, visits, head_right, tail_zero, Distances, over, Short, broken, Leads};

use bools::both;
use octets::joined;
use rows::RowSet;

// A window has so many records of so many bytes.
pub const PLACES: usize = 16;

pub const WIDTH: usize = 36;

// A window: the index of its oldest record, 0 for none, and the bytes of its 16 records.
#[derive(Clone, Copy)]
pub struct Window<'a> {
    pub oldest: usize,
    pub records: &'a [u8],
    ghost whole: { length records.now ≡ 576 },
}

// The records before the first one whose head is not right, and how many of them the record behind them does not follow.
#[derive(Clone, Copy)]
struct Heads {
    count: usize,
    breaks: usize,
}

// Entry n + 31 - size is how far byte n of a record is behind a patch of that size; 0 where it is one of the patch.
fn distances() -> [u8; 64]
    ensures { Distances result }
{
    *b"\x00\x00\x00\x00\x00\x00\x00\x00\x00\x00\x00\x00\x00\x00\x00\x00\x00\x00\x00\x00\x00\x00\x00\x00\x00\x00\x00\x00\x00\x00\x00\x00\x01\x02\x03\x04\x05\x06\x07\x08\x09\x0a\x0b\x0c\x0d\x0e\x0f\x10\x11\x12\x13\x14\x15\x16\x17\x18\x19\x1a\x1b\x1c\x1d\x1e\x1f\x20"
}

// Byte n of the 32 of a record, cut down to how far it is behind the patch: 0 exactly where it is one of the patch or 0.
fn over(table: &[u8; 64], r: &[u8], at: usize, n: usize) -> u8
    requires { Distances table.now × (at + 36 ≤ length r.now) × (length r.now ≡ 144) × Within 32 n × (get_or r.now (at + 1) 0 ≤ 32) }
    ensures { result ≡ over r.now at n }
{
    let byte = r[at + 3 + n];
    let size = r[at + 1] as usize;
    byte.min(table[n + 31 - size])
}

// Are there zeros behind the patches of four records? It looks at four at once, without a branch: so it takes many bytes at a time.
fn four_zero(table: &[u8; 64], r: &[u8]) -> bool
    requires { Distances table.now × (length r.now ≡ 144) × Short 4 r.now }
    ensures { result ≡ every 4 (λ x. tail_zero (block 0 36 x r.now)) }
{
    let mut bits: u8 = 0;
    for k in 0..32 {
        let n = k + 1;
        let low = joined(over(table, r, 0, n), over(table, r, 36, n));
        let high = joined(over(table, r, 72, n), over(table, r, 108, n));
        bits = joined(bits, joined(low, high));
    }
    bits == 0
}

impl<'a> Window<'a> {
    // The next younger record.
    pub fn next_of(self, x: usize) -> usize
        requires { Within 16 x }
        ensures { result ≡ get younger (block 0 36 x self.entry.records.now) }
    {
        let at = (x - 1) * WIDTH;
        octets::u8_at(self.records, at) as usize
    }

    // How many records the chain has, if it visits records 1 to so many once each.
    fn visited(self) -> Option<usize>
        ensures { result ≡ cond (visits (window self.entry.oldest self.entry.records.now)) (Some (length (path (window self.entry.oldest self.entry.records.now)))) None }
    {
        let mut seen = RowSet::EMPTY;
        let mut next = self.oldest;
        for count in 0..PLACES + 1 {
            if next == 0 {
                return if seen.fills(count) { Some(count) } else { None };
            }
            // an index is tested before it is followed
            if PLACES < next {
                return None;
            }
            seen = seen.add(next - 1, true);
            next = self.next_of(next);
        }
        None
    }

    // Does the head of record x name 1 to 32 bytes within the file?
    fn head_right(self, file: usize, x: usize) -> bool
        requires { Within 16 x }
        ensures { result ≡ head_right file (block 0 36 x self.entry.records.now) }
    {
        let at = (x - 1) * WIDTH;
        let size = octets::u8_at(self.records, at + 1) as usize;
        let end = octets::u16_at(self.records, at + 2) as usize + size;
        let some = both(1 <= size, size <= 32);
        both(some, end <= file)
    }

    // Its leading records whose heads are right.
    fn leading(self, file: usize) -> Heads
        ensures { Leads (λ x. head_right file (block 0 36 x self.entry.records.now)) result.count × (result.breaks ≡ count result.count (broken self.entry.records.now)) }
    {
        let mut breaks = 0;
        for k in 0..PLACES {
            let x = k + 1;
            if !self.head_right(file, x) {
                return Heads {
                    count: k,
                    breaks: breaks,
                };
            }
            if self.next_of(x) != x + 1 {
                breaks += 1;
            }
        }
        Heads {
            count: PLACES,
            breaks: breaks,
        }
    }

    // Does the chain visit records 1 to k as writes lay it: from the oldest up to k, and from 1 up to the oldest? Each record is then followed by the one behind
    // it, but the youngest, and record k where the oldest is not 1.
    fn in_order(self, k: usize, breaks: usize) -> bool
        requires { (1 ≤ self.oldest) × Within 16 k × (breaks ≡ count k (broken self.records.now)) }
        ensures { result ≡ true → (visits (window self.entry.oldest self.entry.records.now) ≡ true) × (length (path (window self.entry.oldest self.entry.records.now)) ≡ k) }
    {
        let last = self.next_of(k);
        if self.oldest == 1 {
            return both(breaks == 1, last == 0);
        }
        if k < self.oldest {
            return false;
        }
        let ends = both(last == 1, self.next_of(self.oldest - 1) == 0);
        both(breaks == 2, ends)
    }

    // Does the chain visit records 1 to k once each? Another order than that of writes is followed.
    fn chained(self, k: usize, breaks: usize) -> bool
        requires { (1 ≤ self.oldest) × Within 16 k × (breaks ≡ count k (broken self.records.now)) }
        ensures { result ≡ (visits (window self.entry.oldest self.entry.records.now) && eqb (length (path (window self.entry.oldest self.entry.records.now))) k) }
    {
        if self.in_order(k, breaks) {
            return true;
        }
        self.visited() == Some(k)
    }

    // Are there zeros behind the patches of records 1 to k, the others being zero?
    fn tails_zero(self, table: &[u8; 64], k: usize) -> bool
        requires { Distances table.now × (k ≤ 16) × (all_zero (drop (k * 36) self.records.now) ≡ true) × Short 16 self.records.now }
        ensures { result ≡ every k (λ x. tail_zero (block 0 36 x self.entry.records.now)) }
    {
        for i in (0..k).step_by(4) {
            let at = i * WIDTH;
            if !four_zero(table, &self.records[at..at + 144]) {
                return false;
            }
        }
        true
    }

    // Is a window that has records right?
    pub fn records_right(self, file: usize, version: u32) -> bool
        requires { 1 ≤ self.oldest }
        ensures { result ≡ window_right file version (window self.entry.oldest self.entry.records.now) }
    {
        // made first: bytes just stored are slow to load at other places
        let table = distances();
        let found = self.leading(file);
        let k = found.count;
        if k == 0 {
            return false;
        }
        if (version as usize) < k {
            return false;
        }
        if !self.chained(k, found.breaks) {
            return false;
        }
        let end = k * WIDTH;
        if !octets::all_zero(&self.records[end..]) {
            return false;
        }
        self.tails_zero(&table, k)
    }
}

// Is a window right, for a file of so many bytes and a version?
pub fn window_right(file: usize, version: u32, oldest: usize, records: &[u8]) -> bool
    requires { length records.now ≡ 576 }
    ensures { result ≡ window_right file version (window oldest records.now) }
{
    if oldest == 0 {
        return octets::all_zero(records);
    }
    let w = Window {
        oldest: oldest,
        records: records,
    };
    w.records_right(file, version)
}
