// One order more of a round, as a struct and in bytes.
#![tactic(auto)]

ghost use Rattle.std.specs.Prelude.{◌≡◌, cond, ◌+◌, ◌≤◌, length, IfOk};
ghost use Rattle.table.specs.WellFormed.{between};
ghost use Rattle.ordering.specs.Rounds.{order_in};
ghost use Rattle.orders.specs.Turns.{turn, turned, Opened};
ghost use Rattle.opening.specs.Standings.{Stands};

use asking::Refusal;
pub use opening::{Standing, asked, begin};
use ordering::Order;
pub use orders::Turn;
use orders::step;

// As many bytes as an order has: none where their number is wrong.
fn bytes_in(count: u8) -> usize
    ensures { (result ≡ cond (between 1 count 8) count 0) × (result ≤ 8) }
{
    if values::between(1, count as usize, 8) {
        count as usize
    } else {
        0
    }
}

// One order more: where the round stands then, or why it ends. A round that has ended stays as it is.
pub fn next(
    t: &mut [u8],
    sheet: &mut [u8],
    r: u64,
    o: Order,
    s: Standing,
) -> Result<Standing, Refusal>
    requires { s.turn.done ≤ 64 → Stands t.old sheet.old s }
    ensures made { record { result = turned (λ next. next.turn.done) s.turn.done result; table = t.new; sheet = sheet.new } ≡ turn r (record { result = s.turn.done; table = t.old; sheet = sheet.old }) o }
    ensures ready { s.turn.done ≤ 64 → IfOk result (λ next. (next.turn.done ≡ s.turn.done + 1) × Stands t.new sheet.new next) }
{
    let order = s.order;
    let sets = s.sets;
    let mut choices = s.choices;
    let bytes = o.bytes;
    let n = bytes_in(o.length);
    let turn = step(
        t,
        sheet,
        &order,
        &sets,
        o.coordinator as usize,
        r,
        o.offset as usize,
        &bytes[0..n],
        o.file as usize,
        o.club as u64,
        s.turn,
        &mut choices,
    )?;
    Ok(Standing {
        turn: turn,
        order: order,
        sets: sets,
        choices: choices,
    })
}

// One order more, in 16 bytes: how far the round is then, or why it ends. A round that has ended stays as it is.
pub fn next_in(
    t: &mut [u8],
    sheet: &mut [u8],
    order: &[u8; 64],
    sets: &[u64; 8],
    r: u64,
    o: &[u8],
    so_far: Turn,
    choices: &mut [u64; 16],
) -> Result<Turn, Refusal>
    requires { (so_far.done ≤ 64 → Opened t.old sheet.old order.now sets.now so_far choices.old) × (length o.now ≡ 16) }
    ensures made { record { result = turned (λ next. next.done) so_far.done result; table = t.new; sheet = sheet.new } ≡ turn r (record { result = so_far.done; table = t.old; sheet = sheet.old }) (order_in o.now) }
    ensures ready { so_far.done ≤ 64 → IfOk result (λ next. (next.done ≡ so_far.done + 1) × Opened t.new sheet.new order.now sets.now next choices.new) }
{
    let n = bytes_in(octets::u8_at(o, 1));
    step(
        t,
        sheet,
        order,
        sets,
        octets::u8_at(o, 0) as usize,
        r,
        octets::u16_at(o, 2) as usize,
        &o[4..4 + n],
        octets::u8_at(o, 12) as usize,
        octets::u8_at(o, 13) as u64,
        so_far,
        choices,
    )
}
