// Questions in order, by definitions and laws; why a call is refused; an answer as one number.
#![tactic(auto)]

ghost use Rattle.std.specs.Prelude.{◌≡◌};
ghost use Rattle.asking.specs.Refusals.{refusal_number, answer_number};

// Why a call is refused.
#[derive(Clone, Copy, PartialEq, Eq)]
pub enum Refusal {
    NotWellFormed,
    UnknownRow,
    NotAnswering,
    WrongRange,
    WrongSpace,
    NoQuorum,
    NotCurrent,
    AtLimit,
    StaleSource,
    NotWaiting,
    WrongNames,
    WrongSizes,
    NameTaken,
    TableFull,
    NotPlain,
    UnknownFile,
    NoChart,
    ClubSpent,
    ShareSpent,
    WrongCounty,
}

impl Refusal {
    // The number that the papers give it.
    pub fn number(self) -> u32
        ensures { result ≡ refusal_number self }
    {
        match self {
            Refusal::NotWellFormed => 1,
            Refusal::UnknownRow => 2,
            Refusal::NotAnswering => 3,
            Refusal::WrongRange => 4,
            Refusal::WrongSpace => 5,
            Refusal::NoQuorum => 6,
            Refusal::NotCurrent => 7,
            Refusal::AtLimit => 8,
            Refusal::StaleSource => 9,
            Refusal::NotWaiting => 10,
            Refusal::WrongNames => 11,
            Refusal::WrongSizes => 12,
            Refusal::NameTaken => 13,
            Refusal::TableFull => 14,
            Refusal::NotPlain => 15,
            Refusal::UnknownFile => 16,
            Refusal::NoChart => 17,
            Refusal::ClubSpent => 18,
            Refusal::ShareSpent => 19,
            Refusal::WrongCounty => 20,
        }
    }
}

// An answer as one number, for C: refusal number times 2^32, plus value.
pub fn number(answer: Result<u32, Refusal>) -> u64
    ensures { result ≡ answer_number answer }
{
    match answer {
        Ok(value) => value as u64,
        Err(refusal) => refusal.number() as u64 * 4_294_967_296,
    }
}
