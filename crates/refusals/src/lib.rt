#![tactic(auto)]
// The reasons for which a call, a lookup or a card is refused, and their numbers.
ghost use Rattle.std.specs.Prelude.{◌≡◌};
ghost use Rattle.refusals.specs.Refusals.{number_of, outcome_number};

// The numbers are document 01's.
#[derive(Clone, Copy, Debug, PartialEq, Eq)]
pub enum Refusal {
    Type = 1,
    Number = 2,
    Conductivity = 3,
    Mhz = 4,
    Bays = 5,
    Argument = 6,
    Length = 7,
    Malformed = 8,
    Height = 9,
    Count = 10,
    Unsettled = 11,
}

impl Refusal {
    pub fn number(self) -> u32
        ensures { result ≡ number_of self }
    {
        self as u32
    }
}

// What a caller in C is told: 0 where nothing is refused.
pub fn verdict_number<T: Copy>(verdict: Result<T, Refusal>) -> u32
    ensures { result ≡ outcome_number verdict }
{
    match verdict {
        Ok(_) => 0,
        Err(refusal) => refusal.number(),
    }
}
