// A row of a table, its head and its copies: the offsets of their fields.
#![tactic(auto, unfolding(crate::specs::Layout::get, crate::specs::Layout::store, crate::specs::Layout::name, crate::specs::Layout::link, crate::specs::Layout::mark, crate::specs::Layout::version, crate::specs::Layout::desired, crate::specs::Layout::epoch, crate::specs::Layout::members, crate::specs::Layout::grid_mark, crate::specs::Layout::county, crate::specs::Layout::oldest, crate::specs::Layout::mark_in, crate::specs::Layout::former_mark, crate::specs::Layout::oldest_in, crate::specs::Layout::former_oldest, crate::specs::Layout::store_list, crate::specs::Layout::is_empty, crate::specs::Layout::is_tall))]

ghost use Rattle.std.specs.Prelude.{◌≡◌, true, ◌+◌, ◌≤◌, eqb, length};
ghost use Rattle.fields.specs.Layout.{get, store, name, link, mark, version, desired, epoch, members, grid_mark, county, oldest, mark_in, oldest_in, list, store_list, is_empty, is_tall, contents, store_contents};
ghost use Rattle.octets.specs.Bytes.{part};

// A list of rows as it was laid: bit i − 1 of `members` for row i; the mark of its grid.
#[derive(Clone, Copy, PartialEq, Eq)]
pub struct Laid {
    pub members: u64,
    pub mark: u8,
}

impl Laid {
    // No list.
    pub const NONE: Laid = Laid {
        members: 0,
        mark: 0,
    };

    // Does the list name no row?
    pub fn is_empty(self) -> bool
        ensures { result ≡ is_empty self }
    {
        self.members == 0
    }

    // Is it laid tall?
    pub fn is_tall(self) -> bool
        ensures { result ≡ is_tall self }
    {
        self.mark == 2
    }
}

// A row's head; the copies stand behind it.
pub const HEAD: usize = 32;

// What stands before the contents of a copy.
pub const LEAD: usize = 12;

// The records of its window, the last bytes of a copy.
pub const RECORDS: usize = 576;

// the first form whose rows have them
pub const WITH_RECORDS: u8 = 3;

// the first form whose rows have a copy for each file
pub const WITH_FILES: u8 = 4;

const NAME_AT: usize = 0;

const LINK_AT: usize = 2;

const MARK_AT: usize = 0;

const OLDEST_AT: usize = 1;

const VERSION_AT: usize = 4;

const DESIRED_AT: usize = 8;

const EPOCH_AT: usize = 12;

const MEMBERS_AT: usize = 16;

pub const GRID_MARK_AT: usize = 24;

const COUNTY_AT: usize = 26;

// before files came
const FORMER_MARK_AT: usize = 3;

pub const FORMER_OLDEST_AT: usize = 25;

pub fn name(row: &[u8]) -> u16
    requires { 32 ≤ length row.now }
    ensures { result ≡ get name row.now }
{
    octets::u16_at(row, NAME_AT)
}

pub fn link(row: &[u8]) -> u8
    requires { 32 ≤ length row.now }
    ensures { result ≡ get link row.now }
{
    octets::u8_at(row, LINK_AT)
}

pub fn mark(copy: &[u8]) -> u8
    requires { 12 ≤ length copy.now }
    ensures { result ≡ get mark copy.now }
{
    octets::u8_at(copy, MARK_AT)
}

pub fn is_stale(copy: &[u8]) -> bool
    requires { 12 ≤ length copy.now }
    ensures { result ≡ eqb (get mark copy.now) 1 }
{
    mark(copy) == 1
}

pub fn version(copy: &[u8]) -> u32
    requires { 12 ≤ length copy.now }
    ensures { result ≡ get version copy.now }
{
    octets::u32_at(copy, VERSION_AT)
}

pub fn desired(copy: &[u8]) -> u32
    requires { 12 ≤ length copy.now }
    ensures { result ≡ get desired copy.now }
{
    octets::u32_at(copy, DESIRED_AT)
}

pub fn epoch(row: &[u8]) -> u32
    requires { 32 ≤ length row.now }
    ensures { result ≡ get epoch row.now }
{
    octets::u32_at(row, EPOCH_AT)
}

pub fn members(row: &[u8]) -> u64
    requires { 32 ≤ length row.now }
    ensures { result ≡ get members row.now }
{
    octets::u64_at(row, MEMBERS_AT)
}

// The mark of the grid that a row's list was laid in.
pub fn grid_mark(row: &[u8]) -> u8
    requires { 32 ≤ length row.now }
    ensures { result ≡ get grid_mark row.now }
{
    octets::u8_at(row, GRID_MARK_AT)
}

pub fn county(row: &[u8]) -> u8
    requires { 32 ≤ length row.now }
    ensures { result ≡ get county row.now }
{
    octets::u8_at(row, COUNTY_AT)
}

// The oldest record of the copy's window.
pub fn oldest(copy: &[u8]) -> u8
    requires { 12 ≤ length copy.now }
    ensures { result ≡ get oldest copy.now }
{
    octets::u8_at(copy, OLDEST_AT)
}

// The mark and the oldest record where a table of this form has them: before files came a row was its own copy.
pub fn mark_in(form: u8, copy: &[u8]) -> u8
    requires { 32 ≤ length copy.now }
    ensures { result ≡ get (mark_in form) copy.now }
{
    if form < WITH_FILES {
        return octets::u8_at(copy, FORMER_MARK_AT);
    }
    mark(copy)
}

pub fn oldest_in(form: u8, copy: &[u8]) -> u8
    requires { 32 ≤ length copy.now }
    ensures { result ≡ get (oldest_in form) copy.now }
{
    if form < WITH_FILES {
        return octets::u8_at(copy, FORMER_OLDEST_AT);
    }
    oldest(copy)
}

// A row's list.
pub fn list(row: &[u8]) -> Laid
    requires { 32 ≤ length row.now }
    ensures { result ≡ list row.now }
{
    Laid {
        members: members(row),
        mark: grid_mark(row),
    }
}

pub fn set_name(row: &mut [u8], v: u16)
    requires { 32 ≤ length row.old }
    ensures { row.new ≡ store name v row.old }
{
    octets::store_at(row, NAME_AT, 2, v as u64);
}

pub fn set_link(row: &mut [u8], v: u8)
    requires { 32 ≤ length row.old }
    ensures { row.new ≡ store link v row.old }
{
    octets::store_at(row, LINK_AT, 1, v as u64);
}

pub fn set_mark(copy: &mut [u8], v: u8)
    requires { 12 ≤ length copy.old }
    ensures { copy.new ≡ store mark v copy.old }
{
    octets::store_at(copy, MARK_AT, 1, v as u64);
}

pub fn set_version(copy: &mut [u8], v: u32)
    requires { 12 ≤ length copy.old }
    ensures { copy.new ≡ store version v copy.old }
{
    octets::store_at(copy, VERSION_AT, 4, v as u64);
}

pub fn set_desired(copy: &mut [u8], v: u32)
    requires { 12 ≤ length copy.old }
    ensures { copy.new ≡ store desired v copy.old }
{
    octets::store_at(copy, DESIRED_AT, 4, v as u64);
}

pub fn set_epoch(row: &mut [u8], v: u32)
    requires { 32 ≤ length row.old }
    ensures { row.new ≡ store epoch v row.old }
{
    octets::store_at(row, EPOCH_AT, 4, v as u64);
}

fn set_members(row: &mut [u8], v: u64)
    requires { 32 ≤ length row.old }
    ensures { row.new ≡ store members v row.old }
{
    octets::store_at(row, MEMBERS_AT, 8, v);
}

fn set_grid_mark(row: &mut [u8], v: u8)
    requires { 32 ≤ length row.old }
    ensures { row.new ≡ store grid_mark v row.old }
{
    octets::store_at(row, GRID_MARK_AT, 1, v as u64);
}

pub fn set_county(row: &mut [u8], v: u8)
    requires { 32 ≤ length row.old }
    ensures { row.new ≡ store county v row.old }
{
    octets::store_at(row, COUNTY_AT, 1, v as u64);
}

pub fn set_oldest(copy: &mut [u8], v: u8)
    requires { 12 ≤ length copy.old }
    ensures { copy.new ≡ store oldest v copy.old }
{
    octets::store_at(copy, OLDEST_AT, 1, v as u64);
}

pub fn set_list(row: &mut [u8], l: Laid)
    requires { 32 ≤ length row.old }
    ensures { row.new ≡ store_list l row.old }
{
    set_members(row, l.members);
    set_grid_mark(row, l.mark);
}

// Bytes laid over the contents, from an offset on.
pub fn patch(copy: &mut [u8], offset: usize, bytes: &[u8])
    requires { 12 + offset + length bytes.now ≤ length copy.old }
    ensures { copy.new ≡ store_contents offset bytes.now copy.old }
{
    let at = LEAD + offset;
    let end = at + bytes.len();
    copying::copy(&mut copy[at..end], bytes);
}

// Bytes of the contents copied out, from an offset on.
pub fn copy_out(copy: &[u8], offset: usize, to: &mut [u8])
    requires { 588 + offset + length to.old ≤ length copy.now }
    ensures { to.new ≡ part offset (length to.old) (contents copy.now) }
{
    let from = LEAD + offset;
    let end = from + to.len();
    copying::copy(to, &copy[from..end]);
}
