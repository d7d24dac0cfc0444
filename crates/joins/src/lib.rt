// A joining: its questions in order, then what is done.
#![tactic(auto)]

ghost use Rattle.std.specs.Prelude.{◌≡◌, true, false, not, ◌&&◌, eqb, MatchOption};
ghost use Rattle.sets.specs.Upto.{some};
ghost use Rattle.fields.specs.Layout.{used_of, name_of};
ghost use Rattle.table.specs.WellFormed.{between, well_formed};
ghost use Rattle.table.specs.Asked.{Ordered};
ghost use Rattle.asking.specs.Refusals.{answer_number};
ghost use Rattle.joining.specs.Joining.{row_before};
ghost use Rattle.protocol.specs.Calls.{result_of, outcome, join};

use asking::Refusal;
use values::is_county;

// Question 13, and where the name goes in the chain: the row before it, 0 where it comes first; None where it is 0 or in use.
// Names rise along the chain: the first that is not below tells. `order` starts with the used rows in chain order.
fn place_of(t: &[u8], order: &[u8; 64], name: u16) -> Option<usize>
    requires { (well_formed t.now ≡ true) × Ordered t.now order.now }
    ensures { let free = between 1 name 65_535 && not (some (used_of t.now) (λ i. eqb (name_of t.now i) name)) in MatchOption result (free ≡ false) (λ before. (free ≡ true) × (before ≡ row_before t.now name)) }
{
    if name == 0 {
        return None;
    }
    let mut before = 0;
    for k in 0..header::used(t) {
        let row = order[k] as usize;
        let here = fields::name(table::row_of(t, row));
        if name <= here {
            return if here == name { None } else { Some(before) };
        }
        before = row;
    }
    Some(before)
}

// A joining: the first unused row gets the name and the county and is put into the chain. Value: its index.
pub fn join(t: &mut [u8], name: u16, county: u64) -> Result<u32, Refusal>
    ensures { let o = outcome t.old (join (record { name = name; county = county })) in (answer_number result ≡ result_of o) × (t.new ≡ o.table) }
{
    let mut order = [0u8; 64];
    let mut sets = [0u64; 8];
    if !wellformed::ordered(t, &mut order, &mut sets) {
        return Err(Refusal::NotWellFormed);
    }
    let Some(before) = place_of(t, &order, name) else {
        return Err(Refusal::NameTaken);
    };
    let used = header::used(t);
    if header::capacity(t) <= used {
        return Err(Refusal::TableFull);
    }
    if !is_county(county as usize) {
        return Err(Refusal::WrongCounty);
    }
    admit::admit(t, before, name, county as u8);
    Ok(used as u32 + 1)
}
