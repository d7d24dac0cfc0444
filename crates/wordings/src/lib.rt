// The wordings of notices: a call's word by its number, and the reason of a refusal by its number, each with spaces behind it.
#![tactic(auto)]

ghost use Rattle.std.specs.Prelude.{◌≡◌};
ghost use Rattle.telling.specs.Text.{in_bytes, padded};
ghost use Rattle.telling.specs.Notices.{word, reason};

// The word for a call; for no call there is none.
pub fn call_word(call: u64) -> [u8; 8]
    ensures { result ≡ padded 8 (in_bytes (word call)) }
{
    match call {
        1 => *b"founding",
        2 => *b"read    ",
        3 => *b"write   ",
        4 => *b"send    ",
        5 => *b"check   ",
        6 => *b"joining ",
        7 => *b"round   ",
        8 => *b"move    ",
        9 => *b"chart   ",
        10 => *b"notice  ",
        0 | 11..=18_446_744_073_709_551_615 => *b"        ",
    }
}

// The reason of a refusal, or that no refusal has the number.
pub fn wording(number: u32) -> [u8; 107]
    ensures { result ≡ padded 107 (in_bytes (reason number)) }
{
    match number {
        1 =>
            *b" refused: the tournament table, or the sheet of the clubs' writes, is not in order; hand in a good copy.   ",
        2 =>
            *b" refused: it names a machine that is not in the table, or sends from a machine to itself; name another.    ",
        3 =>
            *b" refused: the machine in charge, or one of the two of a send, did not answer; switch it on and try again.  ",
        4 =>
            *b" refused: it is empty or goes beyond the file, has a wrong or a 65th order, or names no known call.        ",
        5 =>
            *b" refused: the space lent for its answer has a wrong length; whoever keeps the program must put it right.   ",
        6 =>
            *b" refused: too few machines answered, or not the right ones; switch on more of them and try again.          ",
        7 =>
            *b" refused: no machine that answered is known to have all the latest results; wait for one that has them.    ",
        8 =>
            *b" refused: the count of writes, or of new lists of machines, has reached 1,000,000; start a new table.      ",
        9 =>
            *b" refused: the machine that should send is itself behind and waits for results; send from another one.      ",
        10 =>
            *b" refused: the receiver waits for no results, or for newer ones than the sender has: then send from another.",
        11 =>
            *b" refused: it takes 1 to 64 machine names, each above the one before, none 0; and 0 for wide or 1 for tall. ",
        12 =>
            *b" refused: the room for machines, the files, their length, the two forms or the space lent do not fit.      ",
        13 =>
            *b" refused: the new machine's name is 0, or another machine has it; give it a name of its own.               ",
        14 =>
            *b" refused: the table has no free place left for another machine; start a larger table.                      ",
        15 =>
            *b" refused: form 1 knows no machine without a list and no list laid in a newer grid; keep the newer form.    ",
        16 =>
            *b" refused: the tournament has no file of that number; its files are numbered from 1.                        ",
        17 =>
            *b" refused: a chart is for 1 to 9 machines, in a grid that so many can have; grid mark 0 fits all of them.   ",
        18 =>
            *b" refused: the club has made all its writes until the counts start anew, or is none of the clubs 1 to 16.   ",
        19 =>
            *b" refused: the club's own writes and those the clubs share are used up; wait until the counts start anew.   ",
        20 =>
            *b" refused: a county is not one of 1 to 8, or there are not as many counties as names; give each name one.   ",
        0 | 21..=4_294_967_295 =>
            *b": no refusal has this number; 0 stands for a call that was done.                                           ",
    }
}
