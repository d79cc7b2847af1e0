// A day by value, with all that the filters ask of it, so that it is worked out once.
#![tactic(auto)]

ghost use Rattle.std.specs.Prelude.{◌≡◌, ◌+◌, ◌-◌, ◌≤◌, ◌<◌, nat_abs};
ghost use Rattle.calendar.specs.Calendar.{Valid, day_number};
ghost use Rattle.calendar.specs.Parts.{Settled};
ghost use Rattle.calendar.specs.Moved.{moved_back};
ghost use Rattle.days.specs.DayOf.{day_of};

use calendar::{Date, YearDay};

// The number counts from 0000-01-01 = 1, the ordinal is the day of the year, the length is its month's, the week the ISO week.
#[derive(Clone, Copy)]
pub struct Day {
    pub number: u32,
    pub year: u32,
    pub ordinal: u32,
    pub month: u32,
    pub day: u32,
    pub weekday: u32,
    pub length: u32,
    pub week: u32,
}

// The day of a number, which is day `ordinal` of `year`.
fn day_in(number: u32, year: u32, ordinal: u32) -> Day
    requires { Settled number year ordinal × (1 ≤ year) × (year ≤ 100000) × (number < 10000000) }
    ensures { result ≡ day_of number }
{
    let leap = calendar::is_leap(year);
    let month = calendar::month_of(leap, ordinal);
    let day = ordinal - calendar::before_month(leap, month);
    let length = calendar::month_length(leap, month);
    let weekday = calendar::weekday_of(number);
    let week = calendar::iso_week(number, year, ordinal);
    Day {
        number,
        year,
        ordinal,
        month,
        day,
        weekday,
        length,
        week,
    }
}

// The day of a date.
pub fn day_on(date: Date) -> Day
    requires { Valid date × (1 ≤ date.year) × (date.year ≤ 12010) }
    ensures { result ≡ day_of (day_number date) }
{
    let ordinal = calendar::before_month(calendar::is_leap(date.year), date.month) + date.day;
    day_in(
        calendar::before_year(date.year) + ordinal,
        date.year,
        ordinal,
    )
}

// The year and its day of a number, from a day that is at most 366 later.
fn settle_near(number: u32, day: Day) -> YearDay
    requires { Settled day.number day.year day.ordinal × (2 ≤ day.year) × (day.year ≤ 90000) × (day.number ≤ number + 366) × (1 ≤ number) × (number < 10000000) }
    ensures { Settled number result.year result.day }
{
    let base = day.year - 2;
    let first = calendar::year_length(base);
    let second = calendar::year_length(base + 1);
    calendar::settle(base, first + second + day.ordinal + number - day.number)
}

// The day that lies a signed offset before a day. From day 733 on, what lies 366 days before is still in the year 1.
pub fn back(day: Day, offset: i32) -> Day
    requires { (day ≡ day_of day.number) × (733 ≤ day.number) × (day.number < 5000000) × (nat_abs offset ≤ 366) }
    ensures { result ≡ day_of (moved_back day.number offset) }
{
    let number = calendar::earlier(day.number, offset);
    let at = settle_near(number, day);
    day_in(number, at.year, at.day)
}

// Yesterday.
pub fn day_before(day: Day) -> Day
    requires { (day ≡ day_of day.number) × (733 ≤ day.number) × (day.number < 5000000) }
    ensures { result ≡ day_of (day.number - 1) }
{
    back(day, 1)
}
