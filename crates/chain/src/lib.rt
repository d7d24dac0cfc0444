// The chain of used rows.
#![tactic(auto)]

ghost use Rattle.std.specs.Prelude.{◌≡◌, true, ◌&&◌};
ghost use Rattle.table.specs.WellFormed.{visits_each, names_rise};
ghost use Rattle.table.specs.Asked.{Linked, Ordered, walked_into};

use bools::both;
use rows::RowSet;

// Does the chain visit each used row once, and do its names rise? `low` is the name of the row passed last.
// Where they do, `order` starts with the used rows in chain order; in any case with the rows passed, and its other places stay.
pub fn follow(t: &[u8], order: &mut [u8; 64]) -> bool
    requires { Linked t.now }
    ensures { (result ≡ (visits_each t.now && names_rise t.now)) × (result ≡ true → Ordered t.now order.new) × (order.new ≡ walked_into t.now order.old) }
{
    let size = table::row_length(t);
    let used = header::used(t);
    let mut seen = RowSet::EMPTY;
    let mut low: u16 = 0;
    let mut count = 0;
    let mut next = header::first(t);
    // as long as the next row is the one behind, none waits for the link before it
    while next == count + 1 {
        let behind = table::row_at(t, size, count + 1);
        let own = fields::name(behind);
        if own <= low {
            return false;
        }
        order[count] = (count + 1) as u8;
        seen = seen.add(count, true);
        low = own;
        next = fields::link(behind) as usize;
        count += 1;
    }
    for place in count..used {
        if next == 0 {
            return false;
        }
        let row = table::row_at(t, size, next);
        let name = fields::name(row);
        if name <= low {
            return false;
        }
        order[place] = next as u8;
        seen = seen.add(next - 1, true);
        low = name;
        next = fields::link(row) as usize;
    }
    both(next == 0, seen.fills(used))
}
