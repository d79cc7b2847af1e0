// Replays recorded questions about holiday images.
#![tactic(auto)]

ghost use Rattle.std.specs.Prelude.{◌≤◌};

use calendar::Date;
use images::Images;
use refusals::Refusal;
use std::io;

// What is due is a refusal's number, 0 for an answer, and the answer or the place.
fn says_refused(refusal: Refusal, due: &[u8]) -> bool {
    replay::word(due, 0) == refusal.cause.number() as u32
        && replay::word(due, 4) as usize == refusal.place
}

fn says_checked(answer: Result<(), Refusal>, due: &[u8]) -> bool {
    match answer {
        Ok(()) => replay::word(due, 0) == 0 && replay::word(due, 4) == 0,
        Err(refusal) => says_refused(refusal, due),
    }
}

fn says_count(answer: Result<u32, Refusal>, due: &[u8]) -> bool {
    match answer {
        Ok(days) => replay::word(due, 0) == 0 && replay::word(due, 4) == days,
        Err(refusal) => says_refused(refusal, due),
    }
}

fn date_at(bytes: &[u8], at: usize) -> Date
    requires { at ≤ 64 }
{
    let year = replay::word(bytes, at);
    let month = replay::word(bytes, at + 4);
    let day = replay::word(bytes, at + 8);
    Date { year, month, day }
}

// The year 0 where there is no holiday.
fn says_first(answer: Result<Option<Date>, Refusal>, due: &[u8]) -> bool {
    match answer {
        Ok(Some(date)) => replay::word(due, 0) == 0 && date_at(due, 4) == date,
        Ok(None) => replay::word(due, 0) == 0 && replay::word(due, 4) == 0,
        Err(refusal) => says_refused(refusal, due),
    }
}

// An image in its slot, 1 to 4, beside three empty ones.
fn says_slot(slot: u32, image: &[u8], due: &[u8]) -> bool {
    let empty = [0u8; 0];
    let images = Images {
        public: if slot == 1 { image } else { &empty },
        public_unknown: if slot == 2 { image } else { &empty },
        school: if slot == 3 { image } else { &empty },
        school_unknown: if slot == 4 { image } else { &empty },
    };
    says_checked(holidays::check_slots(&images), due)
}

fn says(question: &[u8], due: &[u8]) -> bool {
    let Some(image) = question.get(16..) else {
        return false;
    };
    let date = date_at(question, 4);
    let asked = replay::word(question, 0);
    match asked {
        0 => says_checked(holidays::check(image), due),
        1..=4 => says_slot(asked, image, due),
        5 => says_count(holidays::count_in_month(image, date.year, date.month), due),
        _ => says_first(holidays::first_after(image, date), due),
    }
}

fn main(rt: HostRuntime) -> io::Result<()> {
    let (line, question, due) = (&mut [0; 32768], &mut [0; 16384], &mut [0; 32]);
    replay::run(&rt, line, question, due, says)?;
    Ok(())
}
