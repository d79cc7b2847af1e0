// The calendar's public answers: every question is answered, or refused by 7.
#![tactic(auto)]

ghost use Rattle.std.specs.Prelude.{◌≡◌, ◌<◌, IfOk};
ghost use Rattle.calendar.specs.Calendar.{day_number};
ghost use Rattle.dates.specs.Exists.{is_date};
ghost use Rattle.dates.specs.Answers.{answered};
ghost use Rattle.date_answers.specs.Answers.{length_answer, weekday_answer, week_answer, easter_answer, apart_answer};

use calendar::Date;
use refusals::Refusal;

#[tactic(auto, unfolding(crate::specs::Answers::length_answer))]
pub fn count_days_in_month(year: u32, month: u32) -> Result<u32, Refusal>
    ensures { result ≡ length_answer year month }
{
    if !dates::is_month(year, month) {
        return Err(dates::NO_DATE);
    }
    Ok(calendar::month_length(calendar::is_leap(year), month))
}

// The number of a date that exists.
fn number_of(date: Date) -> Result<u32, Refusal>
    ensures answer { result ≡ answered (is_date date) (day_number date) }
    ensures small { IfOk result (λ n. n < 5000000) }
{
    let date = dates::existing(date)?;
    Ok(calendar::day_number(date))
}

// 0 is Monday, 6 Sunday.
pub fn weekday(date: Date) -> Result<u32, Refusal>
    ensures { result ≡ weekday_answer date }
{
    let number = number_of(date)?;
    Ok(calendar::weekday_of(number))
}

pub fn iso_week(date: Date) -> Result<u32, Refusal>
    ensures { result ≡ week_answer date }
{
    let day = dates::day_at(date)?;
    Ok(day.week)
}

#[tactic(auto, unfolding(crate::specs::Answers::easter_answer))]
pub fn easter(year: u32) -> Result<Date, Refusal>
    ensures { result ≡ easter_answer year }
{
    if !dates::in_years(year) {
        return Err(dates::NO_DATE);
    }
    Ok(easter::easter(year))
}

// The days from one date to another, below 0 where the other is earlier.
pub fn days_apart(from: Date, to: Date) -> Result<i32, Refusal>
    ensures { result ≡ apart_answer from to }
{
    let first = number_of(from)?;
    let second = number_of(to)?;
    Ok(second as i32 - first as i32)
}
