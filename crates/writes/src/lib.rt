// A write: question 1, then all others and what is done, then its notes.
#![tactic(auto)]

ghost use Rattle.std.specs.Prelude.{◌≡◌};
ghost use Rattle.asking.specs.Refusals.{answer_number};
ghost use Rattle.protocol.specs.Calls.{result_of, outcome, write};

use asking::Refusal;
pub use effects::answer;
use grouping::Frame;
use rows::RowSet;
use wellformed::ordered;

// A write of a file for a club: the patch goes to the good rows worked on, the others are marked, how many machines were called is noted, and the club's count
// grows. Value: the new version.
pub fn write(
    t: &mut [u8],
    c: usize,
    r: u64,
    offset: usize,
    patch: &[u8],
    called: &mut [u8],
    file: u64,
    sheet: &mut [u8],
    club: u64,
) -> Result<u32, Refusal>
    ensures { let o = outcome t.old (write (record { c = c; r = r; offset = offset; patch = patch.now; called = called.old; file = file; sheet = sheet.old; club = club })) in (answer_number result ≡ result_of o) × (t.new ≡ o.table) × (patch.now ≡ patch.now) × (called.new ≡ o.called) × (sheet.new ≡ o.sheet) }
{
    let Some(share) = sheets::look(sheet, club) else {
        questions::note(called, 0);
        return Err(Refusal::NotWellFormed);
    };
    let mut order = [0u8; 64];
    let mut sets = [0u64; 8];
    if !ordered(t, &mut order, &mut sets) {
        questions::note(called, 0);
        return Err(Refusal::NotWellFormed);
    }
    let frame = Frame::new(&order, header::used(t), &sets);
    let fits = called.len() == 1;
    let mut size = 0;
    let a = answer(
        t,
        &frame,
        c,
        r,
        offset,
        patch,
        fits,
        file as usize,
        share,
        RowSet::EMPTY,
        &mut size,
    );
    questions::note(called, size);
    if a.is_ok() {
        sheets::count_one(sheet, club as usize);
    }
    a
}
