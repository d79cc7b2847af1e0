// Replays recorded calendar questions: two dates each, and what the public answers about dates must be.
#![tactic(auto)]

ghost use Rattle.std.specs.Prelude.{◌≤◌};

use calendar::Date;
use refusals::Refusal;
use std::io;

fn date_at(question: &[u8], at: usize) -> Date
    requires { at ≤ 64 }
{
    let year = replay::word(question, at);
    let month = replay::word(question, at + 4);
    let day = replay::word(question, at + 8);
    Date { year, month, day }
}

// What is due is a refusal's number, 0 for an answer, and the answer or the place.
fn says_refused(refusal: Refusal, due: &[u8], at: usize) -> bool
    requires { at ≤ 64 }
{
    replay::word(due, at) == refusal.cause.number() as u32
        && replay::word(due, at + 4) as usize == refusal.place
}

fn says_number(answer: Result<u32, Refusal>, due: &[u8], at: usize) -> bool
    requires { at ≤ 64 }
{
    match answer {
        Ok(value) => replay::word(due, at) == 0 && replay::word(due, at + 4) == value,
        Err(refusal) => says_refused(refusal, due, at),
    }
}

fn says_date(answer: Result<Date, Refusal>, due: &[u8], at: usize) -> bool
    requires { at ≤ 56 }
{
    match answer {
        Ok(date) => replay::word(due, at) == 0 && date_at(due, at + 4) == date,
        Err(refusal) => says_refused(refusal, due, at),
    }
}

// The days as they are counted forward; a count backward is below 0.
fn says_forward(answer: Result<i32, Refusal>, due: &[u8], at: usize) -> bool
    requires { at ≤ 56 }
{
    match answer {
        Ok(days) => {
            replay::word(due, at) == 0
                && days >= 0
                && replay::word(due, at + 8) == days.unsigned_abs()
        }
        Err(refusal) => says_refused(refusal, due, at),
    }
}

// Where the second number is 1, the way is backward, and the turned question has the count.
fn says_apart(from: Date, to: Date, due: &[u8]) -> bool {
    let forward = date_answers::days_apart(from, to);
    if replay::word(due, 48) != 1 {
        return says_forward(forward, due, 44);
    }
    forward.is_ok_and(|days| days < 0) && says_forward(date_answers::days_apart(to, from), due, 44)
}

fn says_calendar(date: Date, due: &[u8]) -> bool {
    replay::word(due, 0) == dates::exists(date) as u32
        && says_number(
            date_answers::count_days_in_month(date.year, date.month),
            due,
            4,
        )
        && says_number(date_answers::weekday(date), due, 12)
        && says_number(date_answers::iso_week(date), due, 20)
        && says_date(date_answers::easter(date.year), due, 28)
}

fn says(question: &[u8], due: &[u8]) -> bool {
    let date = date_at(question, 0);
    let other = date_at(question, 12);
    says_calendar(date, due) && says_apart(date, other, due)
}

fn main(rt: HostRuntime) -> io::Result<()> {
    let (line, question, due) = (&mut [0; 512], &mut [0; 128], &mut [0; 64]);
    replay::run(&rt, line, question, due, says)?;
    Ok(())
}
