// What a round begins with: question 1 is asked once, and hands on the chain order and the counties of the rows.
#![tactic(auto)]

ghost use Rattle.std.specs.Prelude.{◌≡◌, replicate, IfOk};
ghost use Rattle.asking.specs.Asking.{first_no};
ghost use Rattle.asking.specs.Refusals.{no_number};
ghost use Rattle.orders.specs.Turns.{first_questions, Opened};
ghost use Rattle.opening.specs.Standings.{Stands};

use asking::Refusal;
use orders::Turn;

// What is asked before the first of n orders. Where there is no no, it is told what is left of the sheet's remainder, and `order` and `sets` have the chain order
// and the counties of the rows.
pub fn asked(
    t: &[u8],
    sheet: &[u8],
    r: u64,
    n: usize,
    order: &mut [u8; 64],
    sets: &mut [u64; 8],
) -> Result<u64, Refusal>
    ensures asked { no_number result ≡ first_no (first_questions t.now sheet.now r n) }
    ensures ready { IfOk result (λ left. Opened t.now sheet.now order.new sets.new (record { done = 0; left = left }) (replicate 16 0)) }
{
    let Some(left) = sheets::begun(sheet) else {
        return Err(Refusal::NotWellFormed);
    };
    if !wellformed::ordered(t, order, sets) {
        return Err(Refusal::NotWellFormed);
    }
    if 0 < n {
        return Ok(left);
    }
    if !values::only_rows(header::used(t), r) {
        return Err(Refusal::UnknownRow);
    }
    Ok(left)
}

// Where a round stands between two orders: how far it is, the chain order and the counties of the rows, and the choices made.
#[derive(Clone, Copy)]
pub struct Standing {
    pub turn: Turn,
    pub order: [u8; 64],
    pub sets: [u64; 8],
    pub choices: [u64; 16],
}

// A round of n orders begins.
pub fn begin(t: &[u8], sheet: &[u8], r: u64, n: usize) -> Result<Standing, Refusal>
    ensures asked { no_number result ≡ first_no (first_questions t.now sheet.now r n) }
    ensures ready { IfOk result (λ s. (s.turn.done ≡ 0) × Stands t.now sheet.now s) }
{
    let mut order = [0u8; 64];
    let mut sets = [0u64; 8];
    let left = asked(t, sheet, r, n, &mut order, &mut sets)?;
    Ok(Standing {
        turn: Turn {
            done: 0,
            left: left,
        },
        order: order,
        sets: sets,
        choices: [0u64; 16],
    })
}
