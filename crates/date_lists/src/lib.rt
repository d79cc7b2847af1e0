// A rule's lists of years, months and dates, and weeks.
#![tactic(auto)]

ghost use Rattle.std.specs.Prelude.{◌≡◌, ◌≤◌};
ghost use Rattle.std.specs.List.{All};
ghost use Rattle.days.specs.DayOf.{day_of};
ghost use Rattle.date_lists.specs.Lists.{years_match, weeks_match, monthday_matches, monthdays_match, YearItemOk, WeekItemOk, MonthdayOk};

use days::Day;
use rules::{Monthday, MonthdayItem, WeekItem, YearItem};

pub fn years_match(items: &[YearItem], d: Day) -> bool
    requires { All YearItemOk items.now }
    ensures { result ≡ years_match items.now d }
{
    items.is_empty() || items.iter().any(|item| date_items::year_matches(*item, d))
}

pub fn weeks_match(items: &[WeekItem], d: Day) -> bool
    requires { All WeekItemOk items.now }
    ensures { result ≡ weeks_match items.now d }
{
    items.is_empty() || items.iter().any(|item| date_items::week_matches(*item, d))
}

pub fn monthday_matches(item: MonthdayItem, d: Day) -> bool
    requires { MonthdayOk item × (d ≡ day_of d.number) × (693961 ≤ d.number) × (d.number ≤ 3652425) }
    ensures { result ≡ monthday_matches item.form d }
{
    match item.form {
        Monthday::Months { start, end } => date_items::months_match(start, end, d),
        Monthday::YearMonths { year, start, end } => date_items::year_months_match(
            year, start, end, d,
        ),
        Monthday::Dates { start, end } => date_ranges::dates_match(start, end, d),
    }
}

pub fn monthdays_match(items: &[MonthdayItem], d: Day) -> bool
    requires { All MonthdayOk items.now × (d ≡ day_of d.number) × (693961 ≤ d.number) × (d.number ≤ 3652425) }
    ensures { result ≡ monthdays_match items.now d }
{
    items.is_empty() || items.iter().any(|item| monthday_matches(*item, d))
}
