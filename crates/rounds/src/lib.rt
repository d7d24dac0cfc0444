// A round: the orders of a list in turn, each a write, up to the first refusal.
#![tactic(auto)]

ghost use Rattle.std.specs.Prelude.{◌≡◌};
ghost use Rattle.asking.specs.Asking.{result_number};
ghost use Rattle.ordering.specs.Rounds.{round_of, round_in};
ghost use Rattle.rounds.specs.Rounds.{StopsFirst, round_number};

use asking::Refusal;
use opening::{asked, begin};
use ordering::Order;
use orders::Turn;
use turns::{next, next_in};

// An order's length in bytes, in C.
const ORDER: usize = 16;

// Why a round ends before the end of its list, and how many orders are done.
#[derive(Clone, Copy, PartialEq, Eq)]
pub struct Stopped {
    pub refusal: Refusal,
    pub done: u32,
}

// Before the first order.
impl From<Refusal> for Stopped {
    ghost from_gives = { StopsFirst };

    fn from(refusal: Refusal) -> Stopped {
        Stopped {
            refusal: refusal,
            done: 0,
        }
    }
}

// What a round answers as one number, for C: how many orders are done, and 2^32 times the number of the refusal where there is one.
pub fn number(answer: Result<u32, Stopped>) -> u64
    ensures { result ≡ round_number answer }
{
    match answer {
        Ok(done) => done as u64,
        Err(stopped) => stopped.refusal.number() as u64 * 4_294_967_296 + stopped.done as u64,
    }
}

// The orders of a list in turn. Value: how many are done.
pub fn round(t: &mut [u8], r: u64, list: &[Order], sheet: &mut [u8]) -> Result<u32, Stopped>
    ensures { (let o = round_of t.old sheet.old r list.now in (round_number result ≡ result_number o.refusal o.value) × (t.new ≡ o.table) × (list.now ≡ list.now) × (sheet.new ≡ o.sheet)) }
{
    let mut s = begin(t, sheet, r, list.len())?;
    for o in list {
        s = match next(t, sheet, r, *o, s) {
            Ok(next) => next,
            Err(refusal) => {
                return Err(Stopped {
                    refusal: refusal,
                    done: s.turn.done as u32,
                });
            }
        };
    }
    Ok(s.turn.done as u32)
}

// The orders of a list of bytes in turn. Value: how many are done. A list that ends inside an order is refused.
pub fn round_in(t: &mut [u8], r: u64, list: &[u8], sheet: &mut [u8]) -> Result<u32, Stopped>
    ensures { (let o = round_in t.old sheet.old r list.now in (round_number result ≡ result_number o.refusal o.value) × (t.new ≡ o.table) × (list.now ≡ list.now) × (sheet.new ≡ o.sheet)) }
{
    let mut order = [0u8; 64];
    let mut sets = [0u64; 8];
    if list.len() % ORDER != 0 {
        asked(t, sheet, r, 0, &mut order, &mut sets)?;
        return Err(Stopped::from(Refusal::WrongRange));
    }
    let n = list.len() / ORDER;
    let left = asked(t, sheet, r, n, &mut order, &mut sets)?;
    let mut turn = Turn {
        done: 0,
        left: left,
    };
    let mut choices = [0u64; 16];
    for k in 0..n {
        let at = k * ORDER;
        turn = match next_in(
            t,
            sheet,
            &order,
            &sets,
            r,
            &list[at..at + ORDER],
            turn,
            &mut choices,
        ) {
            Ok(next) => next,
            Err(refusal) => {
                return Err(Stopped {
                    refusal: refusal,
                    done: turn.done as u32,
                });
            }
        };
    }
    Ok(turn.done as u32)
}
