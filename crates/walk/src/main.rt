// The walk: four machines, seven calls; each line says step, call, refusal number and value.
#![tactic(auto)]

use asking::Refusal;
use std::io;

fn line(rt: &HostRuntime, step: u64, call: &str, answer: Result<u32, Refusal>) -> io::Result<()> {
    match answer {
        Ok(value) => println!(rt; "{step} {call} 0 {value}"),
        Err(refusal) => println!(rt; "{step} {call} {} 0", refusal.number()),
    }
}

// Rows in answering sets count from the right: row 1 is the last digit.
fn main(rt: HostRuntime) -> io::Result<()> {
    let mut table = [0u8; 2512];
    let mut byte = [0u8; 1];
    let mut called = [0u8; 1];
    // a sheet by which club 1 may write nine times: its ceiling, and the total
    let mut sheet = [0u8; 196];
    sheet[4] = 9;
    sheet[192] = 9;
    let _ = founding::found(
        &mut table,
        4,
        4,
        b"\x01\x00\x02\x00\x03\x00\x04\x00",
        0,
        1,
        b"\x01\x01\x01\x01",
    );
    line(
        &rt,
        1,
        "write",
        writes::write(
            &mut table,
            1,
            0b0111,
            0,
            b"a",
            &mut called,
            1,
            &mut sheet,
            1,
        ),
    )?;
    line(
        &rt,
        2,
        "read",
        reads::read(&table, 4, 0b1100, 0, 1, &mut byte, &mut called, 1),
    )?;
    line(
        &rt,
        3,
        "write",
        writes::write(
            &mut table,
            2,
            0b1011,
            0,
            b"b",
            &mut called,
            1,
            &mut sheet,
            1,
        ),
    )?;
    line(
        &rt,
        4,
        "read",
        reads::read(&table, 4, 0b1100, 0, 1, &mut byte, &mut called, 1),
    )?;
    line(&rt, 5, "send", sends::send(&mut table, 3, 4, 0b1100, 1))?;
    line(
        &rt,
        6,
        "check",
        checks::check(&mut table, 1, 0b1011, &mut sheet),
    )?;
    line(
        &rt,
        7,
        "write",
        writes::write(
            &mut table,
            3,
            0b0100,
            0,
            b"c",
            &mut called,
            1,
            &mut sheet,
            1,
        ),
    )
}
