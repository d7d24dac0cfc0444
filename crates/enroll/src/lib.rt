// The rows that an epoch check leaves.
#![tactic(auto)]

ghost use Rattle.std.specs.Prelude.{◌≡◌, true, not, cond, ℕ, ◌+◌, ◌*◌, ◌≤◌, length};
ghost use Rattle.sets.specs.Upto.{Within};
ghost use Rattle.sets.specs.Sets.{has};
ghost use Rattle.blocks.specs.Blocks.{with_block, with_blocks};
ghost use Rattle.fields.specs.Layout.{form_value, form_of, used_of, files_of, file_length_of, with_rows};
ghost use Rattle.table.specs.Asked.{Sized};
ghost use Rattle.protocol.specs.Rows.{marked_copy, enrolled_row, checked_row};
ghost use Rattle.enroll.specs.Files.{by_file};

use fields::Laid;
use rows::RowSet;

// What a check finds of a file: its good rows, and their version.
#[derive(Clone, Copy)]
pub struct FileState {
    pub good: RowSet,
    pub version: u32,
}

// A row gets an epoch number and its list.
fn enroll_row(row: &mut [u8], epoch: u32, list: Laid)
    requires { 32 ≤ length row.old }
    ensures { row.new ≡ enrolled_row epoch list row.old }
{
    fields::set_epoch(row, epoch);
    fields::set_list(row, list);
}

// The copy of file q of a row that is not good in it is marked, copies being so long.
fn mark_other(row: &mut [u8], size: usize, q: usize, good: bool, desired: u32)
    requires { (1 ≤ q) × (32 + q * size ≤ length row.old) × (12 ≤ size) }
    ensures { row.new ≡ cond good row.old (with_block 32 size q (marked_copy desired) row.old) }
{
    if good {
        return;
    }
    let at = fields::HEAD + (q - 1) * size;
    store::mark_copy(&mut row[at..at + size], desired);
}

// That in each file, by its own good rows and version.
fn mark_others(row: &mut [u8], i: usize, size: usize, files: &[FileState])
    requires { (length files.now ≤ 8) × (32 + length files.now * size ≤ length row.old) × (12 ≤ size) }
    ensures { row.new ≡ with_blocks 32 size (λ q. not (has (by_file files.now q).good.bits i)) (λ q. marked_copy (by_file files.now q).version) (length files.now) row.old }
{
    for (k, file) in files.iter().enumerate() {
        mark_other(row, size, k + 1, file.good.has(i), file.version);
    }
}

// What an epoch check makes of row i, one of the new list.
fn check_row(row: &mut [u8], i: usize, size: usize, files: &[FileState], epoch: u32, list: Laid)
    requires { (length files.now ≤ 8) × (32 + length files.now * size ≤ length row.old) × (12 ≤ size) }
    ensures { row.new ≡ enrolled_row epoch list (with_blocks 32 size (λ q. not (has (by_file files.now q).good.bits i)) (λ q. marked_copy (by_file files.now q).version) (length files.now) row.old) }
{
    mark_others(row, i, size, files);
    enroll_row(row, epoch, list);
}

// What an epoch check makes of the rows of the new list, by the state of each file: place q - 1 is for file q.
pub fn check_rows(t: &mut [u8], set: RowSet, files: &[FileState; 8], epoch: u32, list: Laid)
    requires { Sized t.old × (form_of t.old ≡ form_value) × ((i : ℕ) → has set.bits i ≡ true → Within (used_of t.old) i) }
    ensures { t.new ≡ with_rows t.old (has set.bits) (checked_row (files_of t.old) (file_length_of t.old) (λ q. has (by_file files.now q).good.bits) (λ q. (by_file files.now q).version) epoch list) (used_of t.old) }
{
    let size = table::row_length(t);
    let used = &files[..header::files(t)];
    let copy = table::copy_size(header::file_length(t));
    for i in set.members() {
        let at = header::HEADER + (i - 1) * size;
        check_row(&mut t[at..at + size], i, copy, used, epoch, list);
    }
}
