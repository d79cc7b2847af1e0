// The items of a rule that ask for a day's year, week, weekday or month.
#![tactic(auto)]

ghost use Rattle.std.specs.Prelude.{◌≡◌, ◌≤◌, ◌<◌, nat_abs};
ghost use Rattle.days.specs.DayOf.{day_of};
ghost use Rattle.date_items.specs.Items.{stepped, year_matches, week_matches, circular, flag, shifted, weekday_on, weekday_matches, months_match, year_months_match};
ghost use Rattle.date_items.specs.Parts.{last_month};

use days::Day;
use rules::{WeekItem, YearItem};

#[tactic(auto, unfolding(crate::specs::Items::stepped))]
fn stepped(start: u32, end: u32, step: u32, x: u32) -> bool
    requires { 1 ≤ step }
    ensures { result ≡ stepped start end step x }
{
    (start..=end).contains(&x) && (x - start) % step == 0
}

#[tactic(auto, unfolding(crate::specs::Items::year_matches))]
pub fn year_matches(item: YearItem, d: Day) -> bool
    requires { 1 ≤ item.step }
    ensures { result ≡ year_matches item d }
{
    stepped(
        u32::from(item.start),
        u32::from(item.end),
        u32::from(item.step),
        d.year,
    )
}

#[tactic(auto, unfolding(crate::specs::Items::week_matches))]
pub fn week_matches(item: WeekItem, d: Day) -> bool
    requires { 1 ≤ item.step }
    ensures { result ≡ week_matches item d }
{
    stepped(
        u32::from(item.start),
        u32::from(item.end),
        u32::from(item.step),
        d.week,
    )
}

#[tactic(auto, unfolding(crate::specs::Items::circular))]
fn circular(start: u32, end: u32, x: u32) -> bool
    ensures { result ≡ circular start end x }
{
    if start <= end {
        start <= x && x <= end
    } else {
        start <= x || x <= end
    }
}

#[tactic(auto, unfolding(crate::specs::Items::flag))]
fn flag(flags: u8, i: u32) -> bool
    requires { i < 5 }
    ensures { result ≡ flag flags i }
{
    (flags >> (4 - i)) % 2 == 1
}

// The day that lies an offset before d.
pub fn shifted(d: Day, offset: i16) -> Day
    requires { (d ≡ day_of d.number) × (2000 ≤ d.number) × (d.number < 5000000) × (nat_abs offset ≤ 366) }
    ensures { result ≡ shifted d offset }
{
    if offset == 0 {
        return d;
    }
    days::back(d, i32::from(offset))
}

// The flags from the month's start and from its end are `firsts` and `lasts`.
#[tactic(auto, using(crate::proofs::Laws::month_bounds), unfolding(crate::specs::Items::weekday_on))]
fn weekday_on(start: u8, end: u8, firsts: u8, lasts: u8, d: Day) -> bool
    requires { (d ≡ day_of d.number) × (1 ≤ d.number) }
    ensures { result ≡ weekday_on start end firsts lasts d }
{
    circular(u32::from(start), u32::from(end), d.weekday)
        && (flag(firsts, (d.day - 1) / 7) || flag(lasts, (d.length - d.day) / 7))
}

pub fn weekday_matches(start: u8, end: u8, firsts: u8, lasts: u8, offset: i16, d: Day) -> bool
    requires { (d ≡ day_of d.number) × (2000 ≤ d.number) × (d.number < 5000000) × (nat_abs offset ≤ 366) }
    ensures { result ≡ weekday_matches start end firsts lasts offset d }
{
    weekday_on(start, end, firsts, lasts, shifted(d, offset))
}

#[tactic(auto, unfolding(crate::specs::Items::months_match))]
pub fn months_match(start: u8, end: u8, d: Day) -> bool
    ensures { result ≡ months_match start end d }
{
    circular(u32::from(start), u32::from(end), d.month)
}

// The month that the range ends in, counted from the year 0 as all months are here: no day number is needed.
#[tactic(auto, unfolding(crate::specs::Parts::last_month))]
fn last_month(year: u16, start: u8, end: u8) -> u32
    ensures { result ≡ last_month year start end }
{
    let last = u32::from(year) * 12 + u32::from(end);
    if end < start { last + 12 } else { last }
}

pub fn year_months_match(year: u16, start: u8, end: u8, d: Day) -> bool
    requires { (1 ≤ start) × (start ≤ 12) × (1 ≤ end) × (end ≤ 12) × (d ≡ day_of d.number) × (1 ≤ d.number) × (d.year < 1000000) }
    ensures { result ≡ year_months_match year start end d }
{
    let month = d.year * 12 + d.month;
    let first = u32::from(year) * 12 + u32::from(start);
    let last = last_month(year, start, end);
    first <= month && (month < last || month == last && d.day == 1)
}
