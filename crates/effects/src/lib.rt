// A write on a table whose question 1 is answered: its other questions in order, then what is done.
#![tactic(auto)]

ghost use Rattle.std.specs.Prelude.{◌≡◌, true, List, [], ℕ, ◌≤◌, eqb, length, IfOk};
ghost use Rattle.table.specs.WellFormed.{limit};
ghost use Rattle.quorums.specs.declared.Kind.TheVariants.{Write};
ghost use Rattle.grouping.specs.Frames.{FrameOf};
ghost use Rattle.asking.specs.Asking.{first_no};
ghost use Rattle.asking.specs.Refusals.{no_number, answer_number};
ghost use Rattle.sheet.specs.Sheet.{sheet_right, by_club};
ghost use Rattle.protocol.specs.Calls.{result_of, outcome, write, noted};
ghost use Rattle.settle.specs.Works.{Known};

use asking::Refusal;
use grouping::Frame;
use questions::{below_limit, range_asked};
use quorums::Kind;
use rows::RowSet;

// A write into a well-formed table by a right sheet, all but its notes: `frame` is the table's, `fits` says whether one byte is lent for how many machines were
// called, `share` what the sheet says to the club, `known` holds the coordinator's choice where it was made before. How many were called goes to `called`.
pub fn answer(
    t: &mut [u8],
    frame: &Frame,
    c: usize,
    r: u64,
    offset: usize,
    patch: &[u8],
    fits: bool,
    q: usize,
    share: Result<(), Refusal>,
    known: RowSet,
    called: &mut u8,
) -> Result<u32, Refusal>
    requires { FrameOf t.old frame.now × Known Write t.old c known.bits }
    ensures within { IfOk result (λ version. version ≤ limit) }
    ensures answer { (list sheet : List ℕ) (club : ℕ) → fits ≡ eqb (length list) 1 → sheet_right sheet ≡ true → no_number share ≡ first_no (by_club sheet club []) → (let o = outcome t.old (write (record { c = c; r = r; offset = offset; patch = patch.now; called = list; file = q; sheet = sheet; club = club })) in (answer_number result ≡ result_of o) × (t.new ≡ o.table) × (noted list called.new ≡ o.called)) }
{
    let answering = RowSet { bits: r };
    *called = 0;
    range_asked(t, q, c, answering, offset, patch.len())?;
    if !fits {
        return Err(Refusal::WrongSpace);
    }
    let s = settle::settle(Kind::Write, t, q, frame, c, answering, known);
    *called = s.called;
    s.asked?;
    share?;
    if !below_limit(s.version) {
        return Err(Refusal::AtLimit);
    }
    let version = s.version + 1;
    store::write_rows(t, q, s.rows, s.good, version, offset, patch);
    Ok(version)
}
