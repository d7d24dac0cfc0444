// The rows that a write leaves.
#![tactic(auto)]

ghost use Rattle.std.specs.Prelude.{◌≡◌, true, cond, ℕ, ◌+◌, ◌*◌, ◌≤◌, length};
ghost use Rattle.sets.specs.Upto.{Within};
ghost use Rattle.sets.specs.Sets.{has};
ghost use Rattle.blocks.specs.Blocks.{block, with_block};
ghost use Rattle.fields.specs.Layout.{form_value, in_copy, form_of, used_of, file_length_of, files_of, copy_bytes, with_rows};
ghost use Rattle.window.specs.Windows.{window_of};
ghost use Rattle.windows.specs.Visits.{RightFor};
ghost use Rattle.table.specs.Asked.{Sized};
ghost use Rattle.protocol.specs.Rows.{marked_copy, patched_copy, wrote_copy};

use patches::Patch;
use rows::RowSet;

// A copy is marked and desires a version.
pub fn mark_copy(copy: &mut [u8], desired: u32)
    requires { 12 ≤ length copy.old }
    ensures { copy.new ≡ marked_copy desired copy.old }
{
    fields::set_mark(copy, 1);
    fields::set_desired(copy, desired);
}

// A copy takes a patch, and a version; its window takes the patch too.
fn patch_copy(copy: &mut [u8], version: u32, patch: Patch)
    requires { (588 + patch.offset + length patch.bytes.now ≤ length copy.old) × ((file : ℕ) × RightFor file (window_of copy.old)) }
    ensures { copy.new ≡ patched_copy version patch.entry.offset patch.entry.bytes.now copy.old }
{
    fields::set_version(copy, version);
    fields::patch(copy, patch.offset, patch.bytes);
    patches::add(copy, patch);
}

// What a write makes of a copy in a row that it works on: in a good one it takes the patch, in another it is marked.
fn write_copy(copy: &mut [u8], good: bool, version: u32, patch: Patch)
    requires { (588 + patch.offset + length patch.bytes.now ≤ length copy.old) × ((file : ℕ) × RightFor file (window_of copy.old)) }
    ensures { copy.new ≡ cond good (patched_copy version patch.entry.offset patch.entry.bytes.now copy.old) (marked_copy version copy.old) }
{
    if good {
        patch_copy(copy, version, patch);
    } else {
        mark_copy(copy, version);
    }
}

// And of the row: its copy of file q is written, copies being so long.
fn write_row(row: &mut [u8], size: usize, q: usize, good: bool, version: u32, patch: Patch)
    requires { (1 ≤ q) × (32 + q * size ≤ length row.old) × (588 + patch.offset + length patch.bytes.now ≤ size) × ((file : ℕ) × RightFor file (window_of (block 32 size q row.old))) }
    ensures { row.new ≡ with_block 32 size q (λ copy. cond good (patched_copy version patch.entry.offset patch.entry.bytes.now copy) (marked_copy version copy)) row.old }
{
    let at = fields::HEAD + (q - 1) * size;
    write_copy(&mut row[at..at + size], good, version, patch);
}

// What a write of file q makes of the rows that it works on.
pub fn write_rows(
    t: &mut [u8],
    q: usize,
    works: RowSet,
    good: RowSet,
    version: u32,
    offset: usize,
    patch: &[u8],
)
    requires { Sized t.old × (form_of t.old ≡ form_value) × Within (files_of t.old) q × ((i : ℕ) → has works.bits i ≡ true → Within (used_of t.old) i) × (offset + length patch.now ≤ file_length_of t.old) × ((i : ℕ) → has works.bits i ≡ true → (file : ℕ) × RightFor file (window_of (copy_bytes t.old q i))) }
    ensures { t.new ≡ with_rows t.old (has works.bits) (λ i. in_copy (file_length_of t.old) q (wrote_copy (has good.bits) version offset patch.now i)) (used_of t.old) }
{
    let size = table::row_length(t);
    let copy = table::copy_size(header::file_length(t));
    let whole = Patch {
        offset: offset,
        bytes: patch,
    };
    for i in works.members() {
        let at = header::HEADER + (i - 1) * size;
        write_row(&mut t[at..at + size], copy, q, good.has(i), version, whole);
    }
}
