// Ranges of dates around a day.
#![tactic(auto)]

ghost use Rattle.std.specs.Prelude.{◌≡◌, ◌+◌, ◌≤◌, ◌<◌, nat_abs};
ghost use Rattle.days.specs.DayOf.{day_of};
ghost use Rattle.date_bounds.specs.Bounds.{bound_on, BoundOk};
ghost use Rattle.date_ranges.specs.Ranges.{inside, proper, first_proper, dated_match, is_leap_day, leap_day_in, leap_days_match, around, other_match, undated_match, dates_match};

use date_bounds::{Side, YearStart};
use days::Day;
use rules::{Date, DateOffset};

#[tactic(auto, unfolding(crate::specs::Ranges::inside))]
fn inside(start: u32, end: u32, n: u32) -> bool
    ensures { result ≡ inside start end n }
{
    (start..=end).contains(&n)
}

// Does a pair contain day n? One without a start at or before its end says nothing.
#[tactic(auto, unfolding(crate::specs::Ranges::proper))]
fn proper(start: Option<u32>, end: Option<u32>, n: u32) -> Option<bool>
    ensures { result ≡ proper start end n }
{
    match (start, end) {
        (Some(start), Some(end)) if start <= end => Some(inside(start, end, n)),
        _ => None,
    }
}

#[tactic(auto, unfolding(crate::specs::Ranges::first_proper))]
fn first_proper(
    start: Option<u32>,
    earlier: Option<u32>,
    end: Option<u32>,
    later: Option<u32>,
    n: u32,
) -> bool
    ensures { result ≡ first_proper start earlier end later n }
{
    proper(start, end, n)
        .or(proper(earlier, end, n))
        .or(proper(start, later, n))
        .unwrap_or(false)
}

// Dates of which one has a year, or both.
fn dated(start: DateOffset, end: DateOffset, year: u32, near: YearStart, n: u32) -> bool
    requires { BoundOk start × BoundOk end × (1900 ≤ year) × (year ≤ 9999) }
    ensures { result ≡ dated_match start end year n }
{
    let s = date_bounds::bound_on(Side::Start, start, year, near);
    let earlier = date_bounds::bound_on(Side::Start, start, year - 1, near);
    let e = date_bounds::bound_on(Side::End, end, year, near);
    let later = date_bounds::bound_on(Side::End, end, year + 1, near);
    first_proper(s, earlier, e, later, n)
}

#[tactic(auto, unfolding(crate::specs::Ranges::is_leap_day))]
fn is_leap_day(date: Date) -> bool
    ensures { result ≡ is_leap_day date }
{
    matches!(
        date,
        Date::Fixed {
            year: 0,
            month: 2,
            day: 29
        }
    )
}

// 29 February is day 60 of a leap year.
fn leap_day_in(a: i16, b: i16, n: u32, on: YearStart) -> bool
    requires { (nat_abs a ≤ 366) × (nat_abs b ≤ 366) }
    ensures { result ≡ leap_day_in a b n on.year }
{
    if !calendar::is_leap(on.year) {
        return false;
    }
    let leap_day = on.before + 60;
    let start = calendar::later(leap_day, i32::from(a));
    let end = calendar::later(leap_day, i32::from(b));
    inside(start, end, n)
}

// Offsets are at most a year, so that the years before, of and after are enough.
#[tactic(auto, using(crate::proofs::Laws::three_tests))]
fn leap_days(a: i16, b: i16, on: YearStart, n: u32) -> bool
    requires { (nat_abs a ≤ 366) × (nat_abs b ≤ 366) × (1801 ≤ on.year) × (on.year ≤ 10000) × (on.before < n) × (n ≤ on.before + 366) }
    ensures { result ≡ leap_days_match a b on.year n }
{
    let sooner = YearStart {
        year: on.year - 1,
        before: on.before_near(on.year - 1),
    };
    let next = YearStart {
        year: on.year + 1,
        before: on.before_near(on.year + 1),
    };
    leap_day_in(a, b, n, sooner) || leap_day_in(a, b, n, on) || leap_day_in(a, b, n, next)
}

#[tactic(auto, unfolding(crate::specs::Ranges::around))]
fn around(side: Side, d: DateOffset, on: YearStart) -> [Option<u32>; 3]
    requires { BoundOk d × (1801 ≤ on.year) × (on.year ≤ 10000) }
    ensures { result ≡ around (bound_on side d) on.year }
{
    [
        date_bounds::bound_on(side, d, on.year - 1, on),
        date_bounds::bound_on(side, d, on.year, on),
        date_bounds::bound_on(side, d, on.year + 1, on),
    ]
}

fn other(start: DateOffset, end: DateOffset, on: YearStart, n: u32) -> bool
    requires { BoundOk start × BoundOk end × (1801 ≤ on.year) × (on.year ≤ 10000) × (1 ≤ n) × (n ≤ 3652426) }
    ensures { result ≡ other_match start end on.year n }
{
    let starts = around(Side::Start, start, on);
    let ends = around(Side::End, end, on);
    intervals::within(n, &starts, &ends)
}

#[tactic(auto, using(crate::proofs::Laws::kept_all), unfolding(crate::specs::Ranges::undated_match))]
fn undated(start: DateOffset, end: DateOffset, on: YearStart, n: u32) -> bool
    requires { BoundOk start × BoundOk end × (1801 ≤ on.year) × (on.year ≤ 10000) × (on.before < n) × (n ≤ on.before + 366) × (n ≤ 3652426) }
    ensures { result ≡ undated_match start end on.year n }
{
    if is_leap_day(start.date) && is_leap_day(end.date) {
        leap_days(start.offset, end.offset, on, n)
    } else {
        other(start, end, on, n)
    }
}

// The days before the asked year are its number less its day of the year: nothing is counted.
pub fn dates_match(start: DateOffset, end: DateOffset, d: Day) -> bool
    requires { BoundOk start × BoundOk end × (d ≡ day_of d.number) × (693961 ≤ d.number) × (d.number ≤ 3652425) }
    ensures { result ≡ dates_match start end d }
{
    let on = YearStart {
        year: d.year,
        before: d.number - d.ordinal,
    };
    match date_bounds::own_year(start.date).or(date_bounds::own_year(end.date)) {
        Some(year) => dated(start, end, year, on, d.number),
        None => undated(start, end, on, d.number),
    }
}
