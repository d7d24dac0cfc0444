// One order of a round made: the write that it stands for. The choice of a coordinator among the first 16 rows is made once, and kept.
#![tactic(auto)]

ghost use Rattle.std.specs.Prelude.{◌≡◌, [], ◌∷◌, ◌+◌, ◌≤◌, IfOk};
ghost use Rattle.quorums.specs.declared.Kind.TheVariants.{Write};
ghost use Rattle.grouping.specs.Frames.{FrameOf};
ghost use Rattle.settle.specs.Works.{Known};
ghost use Rattle.orders.specs.Turns.{stepped, turned, Kept, Opened};

use asking::Refusal;
use bools::both;
use grouping::Frame;
use quorums::Kind;
use rows::RowSet;

// How far a round is: how many orders are done, and what is left of the sheet's remainder. Where `done` is above 64 the round has ended, and `done` is what it answered.
#[derive(Clone, Copy)]
pub struct Turn {
    pub done: u64,
    pub left: u64,
}

// The rows that a coordinator chooses for a write: those of the first 16 rows are kept as they are made, none where they are not kept.
fn chosen(t: &[u8], frame: &Frame, c: usize, choices: &mut [u64; 16]) -> RowSet
    requires { FrameOf t.now frame.now × Kept t.now choices.old }
    ensures { Known Write t.now c result.bits × Kept t.now choices.new }
{
    let used = header::used(t);
    if !both(values::between(1, c, used), c <= 16) {
        return RowSet::EMPTY;
    }
    let k = c - 1;
    let kept = choices[k];
    if kept != 0 {
        return RowSet { bits: kept };
    }
    let row = table::row_of(t, c);
    let made = tiers::choice(Kind::Write, frame, fields::list(row), fields::name(row));
    choices[k] = made.bits;
    made
}

// One write more, of a file for a club, in a round that is so far: how far it is then, or why it ends. A 65th write is not made, and none after a refusal.
pub fn step(
    t: &mut [u8],
    sheet: &mut [u8],
    order: &[u8; 64],
    sets: &[u64; 8],
    c: usize,
    r: u64,
    offset: usize,
    patch: &[u8],
    file: usize,
    club: u64,
    turn: Turn,
    choices: &mut [u64; 16],
) -> Result<Turn, Refusal>
    requires { turn.done ≤ 64 → Opened t.old sheet.old order.now sets.now turn choices.old }
    ensures made { record { result = turned (λ next. next.done) turn.done result; table = t.new; sheet = sheet.new } ≡ stepped (record { result = turn.done; table = t.old; sheet = sheet.old }) (record { c = c; r = r; offset = offset; patch = patch.now; called = 0 ∷ []; file = file; sheet = sheet.old; club = club }) }
    ensures ready { turn.done ≤ 64 → IfOk result (λ next. (next.done ≡ turn.done + 1) × Opened t.new sheet.new order.now sets.now next choices.new) }
{
    if 64 < turn.done {
        return Ok(turn);
    }
    if turn.done == 64 {
        return Err(Refusal::WrongRange);
    }
    let share = sheets::share_asked(sheet, club, turn.left);
    let frame = Frame::new(order, header::used(t), sets);
    let known = chosen(t, &frame, c, choices);
    // how many machines an order calls is told to nobody
    let mut called = 0;
    effects::answer(
        t,
        &frame,
        c,
        r,
        offset,
        patch,
        true,
        file,
        share,
        known,
        &mut called,
    )?;
    let left = sheets::left_after(sheet, club as usize, turn.left);
    sheets::count_one(sheet, club as usize);
    Ok(Turn {
        done: turn.done + 1,
        left: left,
    })
}
