// Dates on a year: the day numbers that an interval starts from and ends on.
#![tactic(auto)]

ghost use Rattle.std.specs.Prelude.{◌≡◌, ◌+◌, ◌≤◌, ◌<◌, nat_abs};
ghost use Rattle.calendar.specs.Calendar.{before_year};
ghost use Rattle.easter.specs.Easter.{easter_number};
ghost use Rattle.date_bounds.specs.Bounds.{past, fixed_on, forward, backward, kth, nth_in, nth_on, on_year, own_year, date_on, bound_on, MonthOk, DateOk, BoundOk};

use rules::{Date, DateOffset};

// What a date is to an interval.
#[derive(Clone, Copy, PartialEq, Eq)]
pub enum Side {
    Start,
    End,
}

impl Side {
    // How many days past its month's last day a date stands that the month does not have.
    fn past(self) -> u32
        ensures { result ≡ past self }
    {
        match self {
            Side::Start => 1,
            Side::End => 0,
        }
    }
}

// A year that can be asked about, and the days before it.
#[derive(Clone, Copy)]
pub struct YearStart {
    pub year: u32,
    pub before: u32,
    ghost counted: { before ≡ before_year year },
    ghost low: { 1800 ≤ year },
    ghost high: { year ≤ 10001 },
}

impl YearStart {
    // The days before another year: next to this one a sum, farther off the formula.
    pub fn before_near(self, year: u32) -> u32
        requires { year ≤ 10001 }
        ensures { result ≡ before_year year }
    {
        if year == self.year {
            return self.before;
        }
        if year == self.year + 1 {
            return self.before + calendar::year_length(self.year);
        }
        if year + 1 == self.year {
            return self.before - calendar::year_length(year);
        }
        calendar::before_year(year)
    }
}

fn fixed_on(side: Side, on: YearStart, month: u32, day: u32) -> u32
    requires { MonthOk month × (day ≤ 31) }
    ensures { result ≡ fixed_on side on.year month day }
{
    let leap = calendar::is_leap(on.year);
    let length = calendar::month_length(leap, month);
    let start = on.before + calendar::before_month(leap, month);
    if day <= length {
        start + day
    } else {
        start + length + side.past()
    }
}

// The kth day on a weekday among the days b + 1 to b + c, counted from the first.
fn from_start(b: u32, c: u32, weekday: u32, k: u32) -> Option<u32>
    requires { (b < 9000000) × (c ≤ 31) × (weekday < 7) × (k ≤ 8) }
    ensures { result ≡ kth weekday k (forward b c) }
{
    if k == 0 {
        return None;
    }
    let at = (weekday + 7 - calendar::weekday_of(b + 1)) % 7 + 7 * k - 6;
    if at <= c { Some(b + at) } else { None }
}

// And from the last.
fn from_end(b: u32, c: u32, weekday: u32, k: u32) -> Option<u32>
    requires { (b < 9000000) × (c ≤ 31) × (weekday < 7) × (k ≤ 8) }
    ensures { result ≡ kth weekday k (backward b c) }
{
    if k == 0 {
        return None;
    }
    let past = (calendar::weekday_of(b + c) + 7 - weekday) % 7 + 7 * k - 7;
    if past < c { Some(b + c - past) } else { None }
}

// nth is laid off from 1000, so that its sign is a comparison.
fn nth_in(b: u32, c: u32, weekday: u32, nth: i16) -> Option<u32>
    requires { (b < 9000000) × (c ≤ 31) × (weekday < 7) × (nat_abs nth ≤ 8) }
    ensures { result ≡ nth_in b c weekday nth }
{
    let at = calendar::later(1000, i32::from(nth));
    if 1000 <= at {
        return from_start(b, c, weekday, at - 1000);
    }
    from_end(b, c, weekday, 1000 - at)
}

fn nth_on(on: YearStart, month: u32, weekday: u32, nth: i16) -> Option<u32>
    requires { MonthOk month × (weekday < 7) × (nat_abs nth ≤ 8) }
    ensures { result ≡ nth_on on.year month weekday nth }
{
    let leap = calendar::is_leap(on.year);
    let length = calendar::month_length(leap, month);
    let start = on.before + calendar::before_month(leap, month);
    nth_in(start, length, weekday, nth)
}

fn easter_on(on: YearStart) -> u32
    ensures { result ≡ easter_number on.year }
{
    let date = easter::easter(on.year);
    let leap = calendar::is_leap(on.year);
    on.before + calendar::before_month(leap, date.month) + date.day
}

fn on_year(side: Side, date: Date, on: YearStart) -> Option<u32>
    requires { DateOk date }
    ensures { result ≡ on_year side date on.year }
{
    match date {
        Date::Fixed { month, day, .. } => Some(fixed_on(
            side,
            on,
            u32::from(month),
            u32::from(day),
        )),
        Date::Weekday {
            month,
            weekday,
            nth,
            ..
        } => nth_on(on, u32::from(month), u32::from(weekday), nth),
        Date::Easter { .. } => Some(easter_on(on)),
    }
}

#[tactic(auto, unfolding(crate::specs::Bounds::own_year))]
pub fn own_year(date: Date) -> Option<u32>
    ensures { result ≡ own_year date }
{
    match date {
        Date::Fixed { year, .. } | Date::Weekday { year, .. } | Date::Easter { year } => {
            (year != 0).then_some(u32::from(year))
        }
    }
}

fn date_on(side: Side, date: Date, year: u32, near: YearStart) -> Option<u32>
    requires { DateOk date × (1800 ≤ year) × (year ≤ 10001) }
    ensures { result ≡ date_on side date year }
{
    let year = own_year(date).unwrap_or(year);
    let on = YearStart {
        year,
        before: near.before_near(year),
    };
    on_year(side, date, on)
}

// The bound that a date with an offset gives on a year. The days before some year near it are known.
pub fn bound_on(side: Side, d: DateOffset, year: u32, near: YearStart) -> Option<u32>
    requires { BoundOk d × (1800 ≤ year) × (year ≤ 10001) }
    ensures { result ≡ bound_on side d year }
{
    let n = date_on(side, d.date, year, near)?;
    Some(calendar::later(n, i32::from(d.offset)))
}
