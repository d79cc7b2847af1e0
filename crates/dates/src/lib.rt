// Which dates there are to ask about, and the day of one.
#![tactic(auto)]

ghost use Rattle.std.specs.Prelude.{◌≡◌};
ghost use Rattle.dates.specs.Exists.{in_years, is_month, is_date};
ghost use Rattle.dates.specs.Answers.{asked, day_answer};

use calendar::Date;
use days::Day;
use refusals::{Cause, Refusal};

// What is asked about does not exist.
pub const NO_DATE: Refusal = Refusal {
    cause: Cause::NoDate,
    place: 0,
};

#[tactic(auto, unfolding(crate::specs::Exists::in_years))]
pub fn in_years(year: u32) -> bool
    ensures { result ≡ in_years year }
{
    (1..=12000).contains(&year)
}

#[tactic(auto, unfolding(crate::specs::Exists::is_month))]
pub fn is_month(year: u32, month: u32) -> bool
    ensures { result ≡ is_month year month }
{
    in_years(year) && (1..=12).contains(&month)
}

// There is such a date, in the years 1 to 12000.
#[tactic(auto, unfolding(crate::specs::Exists::is_date))]
pub fn exists(date: Date) -> bool
    ensures { result ≡ is_date date }
{
    if !is_month(date.year, date.month) {
        return false;
    }
    let length = calendar::month_length(calendar::is_leap(date.year), date.month);
    (1..=length).contains(&date.day)
}

// A date that exists, as it is.
#[tactic(auto, unfolding(crate::specs::Answers::asked))]
pub fn existing(date: Date) -> Result<Date, Refusal>
    ensures { result ≡ asked date }
{
    if !exists(date) {
        return Err(NO_DATE);
    }
    Ok(date)
}

// A date's day, with all that the filters ask of it.
#[tactic(auto, unfolding(crate::specs::Answers::asked, crate::specs::Answers::day_answer))]
pub fn day_at(date: Date) -> Result<Day, Refusal>
    ensures { result ≡ day_answer date }
{
    let date = existing(date)?;
    Ok(days::day_on(date))
}
