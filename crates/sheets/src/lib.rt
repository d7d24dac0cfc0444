// A sheet of fair use: is it right, may a club write by it; one more write counted, all counts 0.
#![tactic(auto)]

ghost use Rattle.std.specs.Prelude.{◌≡◌, true, false, cond, [], ◌+◌, ◌-◌, ltb, length, MatchOption};
ghost use Rattle.sets.specs.Upto.{Within, every};
ghost use Rattle.asking.specs.Asking.{first_no};
ghost use Rattle.asking.specs.Refusals.{no_number};
ghost use Rattle.sheet.specs.Sheet.{assured_of, count_of, all_assured, remainder, all_beyond, line_right, sheet_right, by_club, counted, cleared};

use asking::Refusal;
use bools::both;

// A sheet's length, its clubs and the length of a club's line.
const SHEET: usize = 196;

const CLUBS: usize = 16;

const LINE: usize = 12;

const CEILING_AT: usize = 4;

const COUNT_AT: usize = 8;

const TOTAL_AT: usize = 192;

// No number of a sheet passes this.
const LIMIT: u32 = 1_000_000;

// What the clubs take of the total: each its count, or its assured number where that is larger. None where a line is not right.
// The 16 lines in one pass: neither assured number nor count is above the ceiling where what the club takes is not.
fn taken(s: &[u8]) -> Option<u64>
    requires { length s.now ≡ 196 }
    ensures { MatchOption result (every 16 (line_right s.now) ≡ false) (λ taken. (every 16 (line_right s.now) ≡ true) × (taken ≡ all_assured s.now + all_beyond s.now)) }
{
    let mut right = true;
    let mut taken: u64 = 0;
    for x in 0..CLUBS {
        let at = x * LINE;
        let ceiling = octets::u32_at(s, at + CEILING_AT);
        let most = octets::u32_at(s, at).max(octets::u32_at(s, at + COUNT_AT));
        right = both(right, both(ceiling <= LIMIT, most <= ceiling));
        taken += most as u64;
    }
    if right { Some(taken) } else { None }
}

// What a round begins with: question 1 of a sheet, and where it is right what is left of its remainder.
pub fn begun(s: &[u8]) -> Option<u64>
    ensures { MatchOption result (sheet_right s.now ≡ false) (λ left. (sheet_right s.now ≡ true) × (left ≡ remainder s.now - all_beyond s.now)) }
{
    if s.len() != SHEET {
        return None;
    }
    let taken = taken(s)?;
    let total = octets::u32_at(s, TOTAL_AT);
    if total <= LIMIT {
        (total as u64).checked_sub(taken)
    } else {
        None
    }
}

// Question 1 of a sheet.
pub fn is_right(s: &[u8]) -> bool
    ensures { result ≡ sheet_right s.now }
{
    begun(s).is_some()
}

// Questions 18 and 19 of a club, by what is left of the remainder.
pub fn share_asked(s: &[u8], club: u64, left: u64) -> Result<(), Refusal>
    requires { (length s.now ≡ 196) × (left ≡ remainder s.now - all_beyond s.now) }
    ensures { no_number result ≡ first_no (by_club s.now club []) }
{
    if club == 0 || 16 < club {
        return Err(Refusal::ClubSpent);
    }
    let at = (club as usize - 1) * LINE;
    let count = octets::u32_at(s, at + COUNT_AT);
    if octets::u32_at(s, at + CEILING_AT) <= count {
        return Err(Refusal::ClubSpent);
    }
    if count < octets::u32_at(s, at) || 0 < left {
        Ok(())
    } else {
        Err(Refusal::ShareSpent)
    }
}

// All that a write asks of a sheet, in one pass: 18 and 19 of a club, where the sheet is right.
pub fn look(s: &[u8], club: u64) -> Option<Result<(), Refusal>>
    ensures { MatchOption result (sheet_right s.now ≡ false) (λ asked. (sheet_right s.now ≡ true) × (no_number asked ≡ first_no (by_club s.now club []))) }
{
    let left = begun(s)?;
    Some(share_asked(s, club, left))
}

// What is left of the remainder after one more done write of a club: one less where its count is not below its assured number.
pub fn left_after(s: &[u8], club: usize, left: u64) -> u64
    requires { (length s.now ≡ 196) × Within 16 club }
    ensures { result ≡ left - cond (ltb (count_of s.now club) (assured_of s.now club)) 0 1 }
{
    let at = (club - 1) * LINE;
    if octets::u32_at(s, at + COUNT_AT) < octets::u32_at(s, at) {
        return left;
    }
    left.saturating_sub(1)
}

// One more done write of a club.
pub fn count_one(s: &mut [u8], club: usize)
    requires { (length s.old ≡ 196) × Within 16 club }
    ensures { s.new ≡ counted s.old club }
{
    let at = (club - 1) * LINE + COUNT_AT;
    let count = octets::u32_at(s, at);
    octets::store_at(s, at, 4, count as u64 + 1);
}

// Every count becomes 0.
pub fn clear(s: &mut [u8])
    requires { length s.old ≡ 196 }
    ensures { s.new ≡ cleared s.old }
{
    for x in 0..CLUBS {
        octets::store_at(s, x * LINE + COUNT_AT, 4, 0);
    }
}
