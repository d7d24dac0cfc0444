// A read: its questions in order, then what is done.
#![tactic(auto)]

ghost use Rattle.std.specs.Prelude.{◌≡◌, List, ℕ, eqb, length};
ghost use Rattle.grouping.specs.Frames.{FrameOf};
ghost use Rattle.asking.specs.Refusals.{answer_number};
ghost use Rattle.protocol.specs.Calls.{result_of, outcome, read, noted};

use asking::Refusal;
use grouping::Frame;
use questions::range_asked;
use quorums::Kind;
use rows::RowSet;

// A read of a well-formed table, all but its note of how many machines were called, which goes to `called`: `frame` is the table's, `fits` says whether one byte is
// lent for the note.
fn answer(
    t: &[u8],
    frame: &Frame,
    c: usize,
    r: u64,
    offset: usize,
    count: usize,
    buffer: &mut [u8],
    fits: bool,
    q: usize,
    called: &mut u8,
) -> Result<u32, Refusal>
    requires { FrameOf t.now frame.now }
    ensures { (list : List ℕ) → fits ≡ eqb (length list) 1 → (let o = outcome t.now (read (record { c = c; r = r; offset = offset; count = count; buffer = buffer.old; called = list; file = q })) in (answer_number result ≡ result_of o) × (t.now ≡ o.table) × (buffer.new ≡ o.buffer) × (noted list called.new ≡ o.called)) }
{
    let answering = RowSet { bits: r };
    *called = 0;
    range_asked(t, q, c, answering, offset, count)?;
    if buffer.len() != count || !fits {
        return Err(Refusal::WrongSpace);
    }
    let none = RowSet::EMPTY;
    let s = settle::settle(Kind::Read, t, q, frame, c, answering, none);
    *called = s.called;
    s.asked?;
    let source = s.good.lowest();
    fields::copy_out(table::copy_of(t, source, q), offset, buffer);
    Ok(s.version)
}

// A read of a file: the range is copied to the buffer, and how many machines were called is noted. Value: the version.
pub fn read(
    t: &[u8],
    c: usize,
    r: u64,
    offset: usize,
    count: usize,
    buffer: &mut [u8],
    called: &mut [u8],
    file: u64,
) -> Result<u32, Refusal>
    ensures { let o = outcome t.now (read (record { c = c; r = r; offset = offset; count = count; buffer = buffer.old; called = called.old; file = file })) in (answer_number result ≡ result_of o) × (t.now ≡ o.table) × (buffer.new ≡ o.buffer) × (called.new ≡ o.called) }
{
    let mut order = [0u8; 64];
    let mut sets = [0u64; 8];
    if !wellformed::ordered(t, &mut order, &mut sets) {
        questions::note(called, 0);
        return Err(Refusal::NotWellFormed);
    }
    let frame = Frame::new(&order, header::used(t), &sets);
    let fits = called.len() == 1;
    let mut size = 0;
    let a = answer(
        t,
        &frame,
        c,
        r,
        offset,
        count,
        buffer,
        fits,
        file as usize,
        &mut size,
    );
    questions::note(called, size);
    a
}
