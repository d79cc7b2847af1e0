// Where a reading stands when a reader takes it up, and what the reader refuses with.
ghost use Rattle.std.specs.Prelude.{◌≡◌, ℕ, Result, Ok};
ghost use Rattle.refusals.specs.declared.Cause.{Cause};
ghost use Rattle.refusals.specs.Numbers.{number};
ghost use Rattle.bits.specs.Place.{refusal, stated};

use crate::Reading;
use refusals::{Cause, Refusal};

// What a reader refuses with, made of a cause in words of its own and a place.
pub trait Refuses: Copy {
    type Cause: Copy;

    ghost says: { Cause → Self.Cause };

    ghost refuses: { Self.Cause → ℕ → Self };

    fn say(cause: Cause) -> Self::Cause
        ensures { result ≡ says cause };

    fn refuse(cause: Self::Cause, place: usize) -> Self
        ensures { result ≡ refuses cause place };

    // An answer in these words.
    fn state<T>(answer: Result<Reading<T>, Refusal>) -> Result<Reading<T>, Self>
        ensures { result ≡ stated says refuses answer }
    {
        match answer {
            Ok(reading) => Ok(reading),
            Err(e) => Err(Self::refuse(Self::say(e.cause), e.place)),
        }
    }
}

impl Refuses for Refusal {
    type Cause = Cause;

    ghost says = { λ cause. cause };

    ghost refuses = { refusal };

    fn say(cause: Cause) -> Cause {
        cause
    }

    fn refuse(cause: Cause, place: usize) -> Refusal {
        Refusal { cause, place }
    }

    // As it is: a large item is not copied once more.
    fn state<T>(answer: Result<Reading<T>, Refusal>) -> Result<Reading<T>, Refusal> {
        answer
    }
}

// A refusal by any number; a cause has the rules' number.
#[derive(Clone, Copy)]
pub struct Numbered {
    pub number: u8,
    pub place: usize,
}

impl Refuses for Numbered {
    type Cause = u8;

    ghost says = { number };

    ghost refuses = { λ n b. record { number = n; place = b } };

    fn say(cause: Cause) -> u8 {
        cause.number()
    }

    fn refuse(number: u8, place: usize) -> Numbered {
        Numbered { number, place }
    }
}

// A place that a reader is given: a bit, or what was refused before, which stays; nothing is read then.
pub trait Place: Copy {
    type Refusal: Refuses;

    ghost given: { Self → Result ℕ Self.Refusal };

    fn bit(self) -> Result<usize, Self::Refusal>
        ensures { result ≡ given self };
}

impl Place for usize {
    type Refusal = Refusal;

    ghost given = { λ at. Ok at };

    fn bit(self) -> Result<usize, Refusal> {
        Ok(self)
    }
}

impl<R: Refuses> Place for Result<usize, R> {
    type Refusal = R;

    ghost given = { λ place. place };

    fn bit(self) -> Result<usize, R> {
        self
    }
}
