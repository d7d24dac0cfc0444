// A copy made anew by a send.
#![tactic(auto)]

ghost use Rattle.std.specs.Prelude.{◌≡◌, ◌+◌, ◌-◌, ◌*◌, ◌≤◌, length};
ghost use Rattle.sets.specs.Upto.{Within};
ghost use Rattle.blocks.specs.Blocks.{with_block};
ghost use Rattle.fields.specs.Layout.{store, form_value, mark, version, desired, contents, store_contents, copy_length, in_copy, form_of, used_of, files_of, file_length_of, copy_bytes, with_row};
ghost use Rattle.window.specs.Windows.{window_of, store_window, sent};
ghost use Rattle.windows.specs.Visits.{RightFor};
ghost use Rattle.table.specs.Asked.{Sized};
ghost use Rattle.protocol.specs.Rows.{refreshed_copy};

use windows::Window;

// A copy is unmarked, has a version and desires none.
fn renew_copy(copy: &mut [u8], v: u32)
    requires { 12 ≤ length copy.old }
    ensures { copy.new ≡ store desired 0 (store version v (store mark 0 copy.old)) }
{
    fields::set_mark(copy, 0);
    fields::set_version(copy, v);
    fields::set_desired(copy, 0);
}

// A copy takes what it misses of another's contents.
fn send_contents(copy: &mut [u8], source: &[u8], missing: usize)
    requires { (588 ≤ length copy.old) × (length copy.old ≡ length source.now) × RightFor (length copy.old - 588) (window_of source.now) }
    ensures { copy.new ≡ store_contents 0 (sent missing (window_of source.now) (contents source.now) (contents copy.old)) copy.old }
{
    let at = copy.len() - fields::RECORDS;
    let w = Window {
        oldest: fields::oldest(source) as usize,
        records: &source[at..],
    };
    patches::sent_over(
        &mut copy[fields::LEAD..at],
        &source[fields::LEAD..at],
        w,
        missing,
    );
}

// A copy takes over another's window.
fn take_window(copy: &mut [u8], source: &[u8])
    requires { (588 ≤ length copy.old) × (length copy.old ≡ length source.now) }
    ensures { copy.new ≡ store_window (window_of source.now) copy.old }
{
    let at = copy.len() - fields::RECORDS;
    let oldest = fields::oldest(source);
    fields::set_oldest(copy, oldest);
    copying::copy(&mut copy[at..], &source[at..]);
}

// A copy takes from another what a send gives it.
fn refresh_copy(copy: &mut [u8], source: &[u8])
    requires { (588 ≤ length copy.old) × (length copy.old ≡ length source.now) × RightFor (length copy.old - 588) (window_of source.now) }
    ensures { copy.new ≡ refreshed_copy source.now copy.old }
{
    let version = fields::version(source);
    let missing = version.saturating_sub(fields::version(copy)) as usize;
    renew_copy(copy, version);
    send_contents(copy, source, missing);
    take_window(copy, source);
}

// The copy of file q of a row takes from another what a send gives it, copies being so long.
fn refresh_row(row: &mut [u8], size: usize, q: usize, source: &[u8])
    requires { (1 ≤ q) × (32 + q * size ≤ length row.old) × (588 ≤ size) × (length source.now ≡ size) × RightFor (size - 588) (window_of source.now) }
    ensures { row.new ≡ with_block 32 size q (refreshed_copy source.now) row.old }
{
    let at = fields::HEAD + (q - 1) * size;
    refresh_copy(&mut row[at..at + size], source);
}

// Row `to` takes the contents, the version and the window of row `from` in file q; its copy is on its way on a page.
fn refresh_by(t: &mut [u8], q: usize, from: usize, to: usize, page: &mut [u8])
    requires { Sized t.old × (form_of t.old ≡ form_value) × Within (files_of t.old) q × Within (used_of t.old) from × Within (used_of t.old) to × RightFor (file_length_of t.old) (window_of (copy_bytes t.old q from)) × (copy_length (file_length_of t.old) ≤ length page.old) }
    ensures { t.new ≡ with_row t.old to (in_copy (file_length_of t.old) q (refreshed_copy (copy_bytes t.old q from))) }
{
    let size = table::row_length(t);
    let copy = table::copy_size(header::file_length(t));
    let at = table::rows_end(t, to - 1);
    page[0..copy].copy_from_slice(table::copy_of(t, from, q));
    refresh_row(&mut t[at..at + size], copy, q, &page[0..copy]);
}

// Row `to` takes the contents, the version and the window of row `from` in file q.
pub fn refresh(t: &mut [u8], q: usize, from: usize, to: usize)
    requires { Sized t.old × (form_of t.old ≡ form_value) × Within (files_of t.old) q × Within (used_of t.old) from × Within (used_of t.old) to × RightFor (file_length_of t.old) (window_of (copy_bytes t.old q from)) }
    ensures { t.new ≡ with_row t.old to (in_copy (file_length_of t.old) q (refreshed_copy (copy_bytes t.old q from))) }
{
    // a copy of a small file needs no page for any
    if table::copy_size(header::file_length(t)) <= 1_024 {
        let mut page = [0u8; 1_024];
        return refresh_by(t, q, from, to, &mut page);
    }
    let mut page = [0u8; 4_684];
    refresh_by(t, q, from, to, &mut page);
}
