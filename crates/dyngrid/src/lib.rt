// What a host program in C sees: one function for each call. The result is refusal number times 2^32, plus value.
#![tactic(auto)]

ghost use Rattle.std.specs.Prelude.{◌≡◌};
ghost use Rattle.asking.specs.Asking.{result_number};
ghost use Rattle.charting.specs.Charts.{charted};
ghost use Rattle.choosing.specs.Choosing.{chosen};
ghost use Rattle.ordering.specs.Rounds.{round_in};
ghost use Rattle.telling.specs.Notices.{noticed};
ghost use Rattle.protocol.specs.Calls.{founding, join, read, write, send, check, carry, result_of, outcome};

use asking::number;

// The number of this interface: it rises with every change of a signature, so that header and archive can be compared.
#[unsafe(no_mangle)]
pub extern "C" fn grid_interface() -> u64
    ensures { result ≡ 11 }
{
    11
}

#[unsafe(no_mangle)]
pub extern "C" fn grid_found(
    table: &mut [u8],
    capacity: u64,
    file: u64,
    names: &[u8],
    choice: u64,
    files: u64,
    counties: &[u8],
) -> u64
    ensures { (let o = outcome table.old (founding (record { capacity = capacity; file_length = file; names = names.now; choice = choice; files = files; counties = counties.now })) in (result ≡ result_of o) × (table.new ≡ o.table) × (names.now ≡ names.now) × (counties.now ≡ counties.now)) }
{
    let rows = capacity as usize;
    let long = file as usize;
    let answer = founding::found(table, rows, long, names, choice, files as usize, counties);
    number(answer)
}

#[unsafe(no_mangle)]
pub extern "C" fn grid_join(table: &mut [u8], name: u16, county: u64) -> u64
    ensures { (let o = outcome table.old (join (record { name = name; county = county })) in (result ≡ result_of o) × (table.new ≡ o.table)) }
{
    number(joins::join(table, name, county))
}

#[unsafe(no_mangle)]
pub extern "C" fn grid_read(
    table: &[u8],
    coordinator: u64,
    answering: u64,
    offset: u64,
    length: u64,
    buffer: &mut [u8],
    called: &mut [u8],
    file: u64,
) -> u64
    ensures { (let o = outcome table.now (read (record { c = coordinator; r = answering; offset = offset; count = length; buffer = buffer.old; called = called.old; file = file })) in (result ≡ result_of o) × (table.now ≡ o.table) × (buffer.new ≡ o.buffer) × (called.new ≡ o.called)) }
{
    let reader = coordinator as usize;
    let from = offset as usize;
    let count = length as usize;
    let answer = reads::read(table, reader, answering, from, count, buffer, called, file);
    number(answer)
}

#[unsafe(no_mangle)]
pub extern "C" fn grid_write(
    table: &mut [u8],
    coordinator: u64,
    answering: u64,
    offset: u64,
    patch: &[u8],
    called: &mut [u8],
    file: u64,
    sheet: &mut [u8],
    club: u64,
) -> u64
    ensures { (let o = outcome table.old (write (record { c = coordinator; r = answering; offset = offset; patch = patch.now; called = called.old; file = file; sheet = sheet.old; club = club })) in (result ≡ result_of o) × (table.new ≡ o.table) × (patch.now ≡ patch.now) × (called.new ≡ o.called) × (sheet.new ≡ o.sheet)) }
{
    let writer = coordinator as usize;
    let to = offset as usize;
    let answer = writes::write(
        table, writer, answering, to, patch, called, file, sheet, club,
    );
    number(answer)
}

// A list of orders, 16 bytes each.
#[unsafe(no_mangle)]
pub extern "C" fn grid_round(
    table: &mut [u8],
    answering: u64,
    orders: &[u8],
    sheet: &mut [u8],
) -> u64
    ensures { (let o = round_in table.old sheet.old answering orders.now in (result ≡ result_number o.refusal o.value) × (table.new ≡ o.table) × (orders.now ≡ orders.now) × (sheet.new ≡ o.sheet)) }
{
    rounds::number(rounds::round_in(table, answering, orders, sheet))
}

#[unsafe(no_mangle)]
pub extern "C" fn grid_send(table: &mut [u8], from: u64, to: u64, answering: u64, file: u64) -> u64
    ensures { (let o = outcome table.old (send (record { f = from; t = to; r = answering; file = file })) in (result ≡ result_of o) × (table.new ≡ o.table)) }
{
    let answer = sends::send(table, from as usize, to as usize, answering, file);
    number(answer)
}

#[unsafe(no_mangle)]
pub extern "C" fn grid_check(
    table: &mut [u8],
    coordinator: u64,
    answering: u64,
    sheet: &mut [u8],
) -> u64
    ensures { (let o = outcome table.old (check (record { c = coordinator; r = answering; sheet = sheet.old })) in (result ≡ result_of o) × (table.new ≡ o.table) × (sheet.new ≡ o.sheet)) }
{
    let answer = checks::check(table, coordinator as usize, answering, sheet);
    number(answer)
}

// A table carried over to another form, into a second buffer.
#[unsafe(no_mangle)]
pub extern "C" fn grid_move(table: &[u8], form: u64, new: &mut [u8]) -> u64
    ensures { (let o = outcome table.now (carry (record { form = form; dest = new.old })) in (result ≡ result_of o) × (table.now ≡ o.table) × (new.new ≡ o.buffer)) }
{
    number(moves::carry(table, form, new))
}

#[unsafe(no_mangle)]
pub extern "C" fn grid_chart(length: u64, mark: u64, list: &mut [u8]) -> u64
    ensures { (let o = charted length mark list.old in (result ≡ result_number o.refusal o.value) × (list.new ≡ o.list)) }
{
    number(charts::chart(length, mark, list))
}

// The set that a coordinator calls first.
#[unsafe(no_mangle)]
pub extern "C" fn grid_choice(table: &[u8], coordinator: u64, kind: u64, set: &mut [u8]) -> u64
    ensures { (let o = chosen table.now coordinator kind set.old in (result ≡ result_number o.refusal o.value) × (table.now ≡ table.now) × (set.new ≡ o.set)) }
{
    let answer = choices::choice(table, coordinator as usize, kind, set);
    number(answer)
}

// A refusal told in one sentence.
#[unsafe(no_mangle)]
pub extern "C" fn grid_notice(call: u64, name: u16, number: u32, buffer: &mut [u8]) -> u64
    ensures { (let o = noticed call name number buffer.old in (result ≡ result_number o.refusal o.value) × (buffer.new ≡ o.buffer)) }
{
    asking::number(notices::notice(call, name, number, buffer))
}
