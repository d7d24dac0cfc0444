// A refusal told in one sentence: its questions in order, then heading, word and reason one behind the other in the lent buffer.
#![tactic(auto)]

ghost use Rattle.std.specs.Prelude.{◌≡◌, List, ℕ, ◌+◌, ◌≤◌, length};
ghost use Rattle.octets.specs.Bytes.{put};
ghost use Rattle.asking.specs.Asking.{result_number};
ghost use Rattle.asking.specs.Refusals.{answer_number};
ghost use Rattle.telling.specs.Text.{decimal, padded, last_of};
ghost use Rattle.telling.specs.Notices.{shown_name, heading, sentence, noticed};
ghost use Rattle.notices.specs.Ends.{Ends};

use asking::Refusal;

// Where a text ends that has spaces behind it.
fn end_of(text: &[u8]) -> usize
    ensures { Ends text.now result }
{
    for n in (0..text.len()).rev() {
        if text[n] != b' ' {
            return n + 1;
        }
    }
    0
}

// A text put at a place without the spaces behind it; where it ends.
fn say(buffer: &mut [u8], at: usize, text: &[u8]) -> usize
    requires { at + length text.now ≤ length buffer.old }
    ensures { ((n : ℕ) (s : List ℕ) → text.now ≡ padded n s → (last_of s ≡ 32 → ⊥) → (result ≡ at + length s) × (buffer.new ≡ put at s buffer.old)) }
{
    let n = end_of(text);
    let end = at + n;
    copying::copy(&mut buffer[at..end], &text[0..n]);
    end
}

// A number in decimal figures, as many as there is room for.
fn figures(s: &mut [u8], v: u64)
    ensures { s.new ≡ decimal (length s.old) v }
{
    let mut left = v;
    for i in (0..s.len()).rev() {
        s[i] = (48 + left % 10) as u8;
        left = left / 10;
    }
}

// A number put at a place, in `width` figures.
fn say_number(buffer: &mut [u8], at: usize, width: usize, v: u64)
    requires { at + width ≤ length buffer.old }
    ensures { buffer.new ≡ put at (decimal width v) buffer.old }
{
    figures(&mut buffer[at..at + width], v);
}

// How a sentence begins: its text with zeros for the figures, and then the figures.
fn say_heading(buffer: &mut [u8], call: u64, name: u16, number: u32)
    requires { 45 ≤ length buffer.old }
    ensures { buffer.new ≡ put 0 (heading call name number) buffer.old }
{
    let text = *b"Call 00 by machine 00000, number 0000000000: ";
    copying::copy(&mut buffer[0..45], &text[0..45]);
    say_number(buffer, 5, 2, call);
    say_number(buffer, 19, 5, name as u64);
    say_number(buffer, 33, 10, number as u64);
}

// The name that a call shows: a read, a write, a check and a round that of the coordinator, every other 0.
fn shown_name(call: u64, name: u16) -> u16
    ensures { result ≡ shown_name call name }
{
    match call {
        2 | 3 | 5 | 7 => name,
        _ => 0,
    }
}

// The sentence, in a buffer of 160 bytes, with spaces behind it; its length.
fn tell(buffer: &mut [u8], call: u64, name: u16, number: u32) -> usize
    requires { length buffer.old ≡ 160 }
    ensures { (let s = sentence call name number in (result ≡ length s) × (buffer.new ≡ padded 160 s)) }
{
    buffer.fill(b' ');
    say_heading(buffer, call, shown_name(call, name), number);
    let word = wordings::call_word(call);
    let behind = say(buffer, 45, &word[0..8]);
    let reason = wordings::wording(number);
    say(buffer, behind, &reason[0..107])
}

// The refusal of a call by a number, told in a lent buffer of 160 bytes. Value: the sentence's length.
pub fn notice(call: u64, name: u16, number: u32, buffer: &mut [u8]) -> Result<u32, Refusal>
    ensures { (let o = noticed call name number buffer.old in (answer_number result ≡ result_number o.refusal o.value) × (buffer.new ≡ o.buffer)) }
{
    if call == 0 || 10 < call {
        return Err(Refusal::WrongRange);
    }
    if buffer.len() != 160 {
        return Err(Refusal::WrongSpace);
    }
    Ok(tell(buffer, call, name, number) as u32)
}
