// The table that a joining leaves: the first unused row named and put into the chain.
#![tactic(auto)]

ghost use Rattle.std.specs.Prelude.{◌≡◌, cond, suc, ◌+◌, ◌*◌, ◌≤◌, ◌<◌, eqb, length};
ghost use Rattle.blocks.specs.Blocks.{with_block};
ghost use Rattle.fields.specs.Layout.{store, link, capacity_of, used_of, link_of};
ghost use Rattle.table.specs.Asked.{Sized};
ghost use Rattle.linking.specs.Linking.{behind};
ghost use Rattle.joining.specs.Joining.{named_row, joined_behind};

// A row gets a name, a link and a county.
fn name_row(row: &mut [u8], name: u16, next: u8, county: u8)
    requires { 32 ≤ length row.old }
    ensures { row.new ≡ named_row name next county row.old }
{
    fields::set_name(row, name);
    fields::set_link(row, next);
    fields::set_county(row, county);
}

// The row behind the first k gets them.
fn add_row(t: &mut [u8], size: usize, k: usize, name: u16, next: u8, county: u8)
    requires { (32 ≤ size) × (16 + k * size + size ≤ length t.old) }
    ensures { t.new ≡ with_block 16 size (suc k) (named_row name next county) t.old }
{
    let at = header::HEADER + k * size;
    name_row(&mut t[at..at + size], name, next, county);
}

// The link of row p; there is no row 0.
fn link_row(t: &mut [u8], size: usize, p: usize, next: u8)
    requires { (32 ≤ size) × (16 + p * size ≤ length t.old) }
    ensures { t.new ≡ with_block 16 size p (store link next) t.old }
{
    if p == 0 {
        return;
    }
    let at = header::HEADER + (p - 1) * size;
    fields::set_link(&mut t[at..at + size], next);
}

// The row behind row p in the chain: the first where p is 0.
fn row_behind(t: &[u8], p: usize, first: u8) -> u8
    requires { Sized t.now × (p ≤ used_of t.now) }
    ensures { result ≡ behind first (link_of t.now) p }
{
    if p == 0 {
        return first;
    }
    fields::link(table::row_of(t, p))
}

// The first unused row gets a name and a county and is put into the chain behind row p, in front where p is 0.
pub fn admit(t: &mut [u8], p: usize, name: u16, county: u8)
    requires { Sized t.old × (used_of t.old < capacity_of t.old) × (p ≤ used_of t.old) }
    ensures { t.new ≡ joined_behind t.old p name county }
{
    let size = table::row_length(t);
    let used = header::used(t);
    let first = header::first(t) as u8;
    let count = used as u8;
    let row = count + 1;
    add_row(t, size, used, name, row_behind(t, p, first), county);
    link_row(t, size, p, row);
    header::set_used(t, row);
    let front = if p == 0 { row } else { first };
    header::set_first(t, front);
}
