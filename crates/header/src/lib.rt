// The header of a table: the offsets of its fields.
#![tactic(auto)]

ghost use Rattle.std.specs.Prelude.{◌≡◌, ◌≤◌, length};
ghost use Rattle.fields.specs.Layout.{store, form, form_value, capacity, used, first, file_length, file_count, form_of, capacity_of, used_of, first_of, file_length_of, files_of};

pub const HEADER: usize = 16;

// the newest form
pub const FORM: u8 = 5;

const FORM_AT: usize = 0;

const CAPACITY_AT: usize = 1;

const USED_AT: usize = 2;

const FIRST_AT: usize = 3;

const FILE_AT: usize = 4;

// the rest of the header is 0, before files came from here on
pub const FILES_AT: usize = 6;

pub fn form(t: &[u8]) -> u8
    requires { 16 ≤ length t.now }
    ensures { result ≡ form_of t.now }
{
    octets::u8_at(t, FORM_AT)
}

pub fn capacity(t: &[u8]) -> usize
    requires { 16 ≤ length t.now }
    ensures { result ≡ capacity_of t.now }
{
    octets::u8_at(t, CAPACITY_AT) as usize
}

pub fn used(t: &[u8]) -> usize
    requires { 16 ≤ length t.now }
    ensures { result ≡ used_of t.now }
{
    octets::u8_at(t, USED_AT) as usize
}

pub fn first(t: &[u8]) -> usize
    requires { 16 ≤ length t.now }
    ensures { result ≡ first_of t.now }
{
    octets::u8_at(t, FIRST_AT) as usize
}

pub fn file_length(t: &[u8]) -> usize
    requires { 16 ≤ length t.now }
    ensures { result ≡ file_length_of t.now }
{
    octets::u16_at(t, FILE_AT) as usize
}

// Before files came a table was of one.
pub fn files(t: &[u8]) -> usize
    requires { 16 ≤ length t.now }
    ensures { result ≡ files_of t.now }
{
    if form(t) < fields::WITH_FILES {
        return 1;
    }
    octets::u8_at(t, FILES_AT) as usize
}

pub fn set_used(t: &mut [u8], n: u8)
    requires { 16 ≤ length t.old }
    ensures { t.new ≡ store used n t.old }
{
    octets::store_at(t, USED_AT, 1, n as u64);
}

pub fn set_first(t: &mut [u8], i: u8)
    requires { 16 ≤ length t.old }
    ensures { t.new ≡ store first i t.old }
{
    octets::store_at(t, FIRST_AT, 1, i as u64);
}

// The header of a table whose chain starts at row 1.
pub fn set_header(t: &mut [u8], rows: u8, n: u8, file: u16, files: u8)
    requires { 16 ≤ length t.old }
    ensures { t.new ≡ store file_count files (store file_length file (store first 1 (store used n (store capacity rows (store form form_value t.old))))) }
{
    octets::store_at(t, FORM_AT, 1, FORM as u64);
    octets::store_at(t, CAPACITY_AT, 1, rows as u64);
    set_used(t, n);
    set_first(t, 1);
    octets::store_at(t, FILE_AT, 2, file as u64);
    octets::store_at(t, FILES_AT, 1, files as u64);
}
