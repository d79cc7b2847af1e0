// The proleptic Gregorian calendar. A day's number counts from 1 January of the year 0, which is day 1.
#![tactic(auto)]

ghost use Rattle.std.specs.Prelude.{◌≡◌, ◌+◌, ◌-◌, ◌≤◌, ◌<◌, nat_abs};
ghost use Rattle.calendar.specs.Calendar.{leap, month_length, before_month, before_year, year_length, day_number, date_of, weekday, iso_week};
ghost use Rattle.calendar.specs.Moved.{moved, moved_back};
ghost use Rattle.calendar.specs.Parts.{Settled, InCycle, InMonth};

#[tactic(auto, unfolding(crate::specs::Calendar::leap))]
pub fn is_leap(year: u32) -> bool
    ensures { result ≡ leap year }
{
    if year % 100 == 0 {
        year % 400 == 0
    } else {
        year % 4 == 0
    }
}

// The days of each month, and the days before it, at the month's own number: of a common year, then of a leap year.
const LENGTHS: [[u32; 13]; 2] = [
    [0, 31, 28, 31, 30, 31, 30, 31, 31, 30, 31, 30, 31],
    [0, 31, 29, 31, 30, 31, 30, 31, 31, 30, 31, 30, 31],
];

const BEFORE: [[u32; 14]; 2] = [
    [
        0, 0, 31, 59, 90, 120, 151, 181, 212, 243, 273, 304, 334, 365,
    ],
    [
        0, 0, 31, 60, 91, 121, 152, 182, 213, 244, 274, 305, 335, 366,
    ],
];

pub fn month_length(leap: bool, month: u32) -> u32
    requires { month < 13 }
    ensures { result ≡ month_length leap month }
{
    LENGTHS[leap as usize][month as usize]
}

pub fn before_month(leap: bool, month: u32) -> u32
    requires { month < 14 }
    ensures { result ≡ before_month leap month }
{
    BEFORE[leap as usize][month as usize]
}

#[tactic(auto, unfolding(crate::specs::Calendar::year_length))]
pub fn year_length(year: u32) -> u32
    ensures { result ≡ year_length (leap year) }
{
    if is_leap(year) { 366 } else { 365 }
}

// The days of the years before one: 365 of each, and one more of each leap year.
pub fn before_year(year: u32) -> u32
    requires { year ≤ 12010 }
    ensures { result ≡ before_year year }
{
    let centuries = (year + 99) / 100;
    365 * year + (year + 3) / 4 + (centuries + 3) / 4 - centuries
}

#[derive(Clone, Copy, PartialEq, Eq)]
pub struct Date {
    pub year: u32,
    pub month: u32,
    pub day: u32,
}

pub fn day_number(date: Date) -> u32
    requires { (date.year ≤ 12010) × (date.month < 13) × (date.day < 32) }
    ensures { result ≡ day_number date }
{
    before_year(date.year) + before_month(is_leap(date.year), date.month) + date.day
}

// A year and a day of it, from 1.
#[derive(Clone, Copy)]
pub struct YearDay {
    pub year: u32,
    pub day: u32,
}

// The days of 400 years, after which the calendar repeats.
const CYCLE: u32 = 146097;

// The year that a day of the years 0 to 399 falls into. Years of 365 days and a quarter miss it only on 1 to 3 January, by one.
fn in_cycle(day: u32) -> YearDay
    requires { (1 ≤ day) × (day ≤ 146097) }
    ensures { InCycle day result.year result.day }
{
    let year = (day - 1) * 4 / 1461;
    let next = before_year(year + 1);
    if next < day {
        YearDay {
            year: year + 1,
            day: day - next,
        }
    } else {
        YearDay {
            year,
            day: day - before_year(year),
        }
    }
}

// The year that a day falls into, and its day there, from a year and a day counted on from that year's start.
pub fn settle(year: u32, rest: u32) -> YearDay
    requires { (1 ≤ rest) × (year ≤ 100000) × (rest ≤ 100000000) }
    ensures { Settled (before_year year + rest) result.year result.day }
{
    let past = year % 400;
    let passed = before_year(past) + rest - 1;
    let at = in_cycle(passed % CYCLE + 1);
    YearDay {
        year: year - past + passed / CYCLE * 400 + at.year,
        day: at.day,
    }
}

// The month that a day of the year falls into. Months of 31 days miss it by one at most.
pub fn month_of(leap: bool, day: u32) -> u32
    requires { (1 ≤ day) × (day ≤ year_length leap) }
    ensures { InMonth leap day result }
{
    let month = (day - 1) / 31 + 1;
    if before_month(leap, month + 1) < day {
        month + 1
    } else {
        month
    }
}

// The date with a number.
pub fn date_of(number: u32) -> Date
    requires { (1 ≤ number) × (number ≤ 100000000) }
    ensures { result ≡ date_of number }
{
    let at = settle(0, number);
    let leap = is_leap(at.year);
    let month = month_of(leap, at.day);
    Date {
        year: at.year,
        month,
        day: at.day - before_month(leap, month),
    }
}

// The number of the day that lies a signed offset after a day.
pub fn later(number: u32, offset: i32) -> u32
    requires { (366 < number) × (number < 10000000) × (nat_abs offset ≤ 366) }
    ensures { result ≡ moved number offset }
{
    ((number as i32) + offset) as u32
}

// The number of the day that lies a signed offset before a day.
pub fn earlier(number: u32, offset: i32) -> u32
    requires { (366 < number) × (number < 10000000) × (nat_abs offset ≤ 366) }
    ensures { result ≡ moved_back number offset }
{
    later(number, -offset)
}

// 0 is Monday, 6 Sunday.
#[tactic(auto, unfolding(crate::specs::Calendar::weekday))]
pub fn weekday_of(number: u32) -> u32
    requires { number < 10000000 }
    ensures { result ≡ weekday number }
{
    (number + 4) % 7
}

// The ISO week of the day of a number, which is day `day` of `year`: that of its week's Thursday, in the year before, in this one or in the next.
pub fn iso_week(number: u32, year: u32, day: u32) -> u32
    requires { Settled number year day × (1 ≤ year) × (year ≤ 100000) × (number < 10000000) }
    ensures { result ≡ iso_week number }
{
    let weekday = weekday_of(number);
    if day + 3 <= weekday {
        return (day + 9 + year_length(year - 1) - weekday) / 7;
    }
    let thursday = day + 3 - weekday;
    if thursday <= year_length(year) {
        return (thursday + 6) / 7;
    }
    1
}
