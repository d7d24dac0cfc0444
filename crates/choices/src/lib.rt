// Whom to call: its questions in order, then the set that the coordinator calls first.
#![tactic(auto)]

ghost use Rattle.std.specs.Prelude.{◌≡◌};
ghost use Rattle.asking.specs.Asking.{result_number};
ghost use Rattle.asking.specs.Refusals.{answer_number};
ghost use Rattle.choosing.specs.Choosing.{chosen};

use asking::Refusal;
use grouping::Frame;
use quorums::Kind;

// The set that a coordinator calls first, as a number in a lent list of 8 bytes. Value: its size.
pub fn choice(t: &[u8], c: usize, kind: u64, set: &mut [u8]) -> Result<u32, Refusal>
    ensures { (let o = chosen t.now c kind set.old in (answer_number result ≡ result_number o.refusal o.value) × (t.now ≡ t.now) × (set.new ≡ o.set)) }
{
    let mut order = [0u8; 64];
    let mut sets = [0u64; 8];
    if !wellformed::ordered(t, &mut order, &mut sets) {
        return Err(Refusal::NotWellFormed);
    }
    let used = header::used(t);
    if !values::between(1, c, used) {
        return Err(Refusal::UnknownRow);
    }
    let kind = match Kind::try_from(kind) {
        Ok(kind) => kind,
        Err(_) => return Err(Refusal::WrongRange),
    };
    if set.len() != 8 {
        return Err(Refusal::WrongSpace);
    }
    let row = table::row_of(t, c);
    let frame = Frame::new(&order, used, &sets);
    let rows = tiers::choice(kind, &frame, fields::list(row), fields::name(row));
    octets::store_at(set, 0, 8, rows.bits);
    Ok(rows.size() as u32)
}
