// Why something is refused, and where: every refusal of the library has a cause, which has the rules' number, and a place.
#![tactic(auto)]

ghost use Rattle.std.specs.Prelude.{◌≡◌};
ghost use Rattle.refusals.specs.Numbers.{number};

#[derive(Clone, Copy, PartialEq, Eq)]
pub enum Cause {
    PastEnd,
    NoMeaning,
    PastLimits,
    NotEnded,
    BadHolidays,
    BadEvent,
    NoDate,
    TooManyRanges,
    NoRoom,
    BadSchedule,
}

impl Cause {
    // The number that the rules give a cause.
    pub fn number(self) -> u8
        ensures { result ≡ number self }
    {
        match self {
            Cause::PastEnd => 1,
            Cause::NoMeaning => 2,
            Cause::PastLimits => 3,
            Cause::NotEnded => 4,
            Cause::BadHolidays => 5,
            Cause::BadEvent => 6,
            Cause::NoDate => 7,
            Cause::TooManyRanges => 8,
            Cause::NoRoom => 9,
            Cause::BadSchedule => 10,
        }
    }
}

#[derive(Clone, Copy)]
pub struct Refusal {
    pub cause: Cause,
    pub place: usize,
}
