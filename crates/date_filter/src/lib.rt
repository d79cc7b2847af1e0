// A rule's match on a day, over the four holiday images.
#![tactic(auto)]

ghost use Rattle.std.specs.Prelude.{◌≡◌, true, ◌||◌, ◌≤◌, ◌<◌, take, All};
ghost use Rattle.days.specs.DayOf.{day_of};
ghost use Rattle.holiday_image.specs.Image.{sound};
ghost use Rattle.date_filter.specs.Filter.{certain_of, unknown_of, in_image, weekday_item_matches, weekdays_match, rule_matches, item_unknown, rule_unknown, weekdays_unknown, WeekdayOk, Sound, Asked, RuleOk};

use days::Day;
use images::Images;
use rules::{Rule, WeekdayItem, WeekdayRange};

fn in_image(image: &[u8], d: Day) -> bool
    requires { (sound image.now ≡ true) × (d ≡ day_of d.number) × (1 ≤ d.number) }
    ensures { result ≡ in_image image.now d }
{
    holiday_image::contains(
        image,
        calendar::Date {
            year: d.year,
            month: d.month,
            day: d.day,
        },
    )
}

fn holiday_on(h: &Images<'_>, of_school: bool, d: Day) -> bool
    requires { Sound h.now × (d ≡ day_of d.number) × (1 ≤ d.number) }
    ensures { result ≡ (in_image (certain_of h.now of_school) d || in_image (unknown_of h.now of_school) d) }
{
    in_image(h.certain(of_school), d) || in_image(h.unknown(of_school), d)
}

fn weekday_item_matches(h: &Images<'_>, item: &WeekdayItem, d: Day) -> bool
    requires { Asked h.now d × WeekdayOk item.now }
    ensures { result ≡ weekday_item_matches h.now item.now.form d }
{
    match item.form {
        WeekdayRange::Fixed {
            start,
            end,
            from_start,
            from_end,
            offset,
        } => date_items::weekday_matches(start, end, from_start, from_end, offset, d),
        WeekdayRange::Holiday { school, offset } => holiday_on(
            h,
            school,
            date_items::shifted(d, offset),
        ),
    }
}

fn weekdays_match(h: &Images<'_>, items: &[WeekdayItem], d: Day) -> bool
    requires { Asked h.now d × All WeekdayOk items.now }
    ensures { result ≡ weekdays_match h.now items.now d }
{
    items.is_empty() || items.iter().any(|item| weekday_item_matches(h, item, d))
}

#[tactic(auto, unfolding(crate::specs::Filter::rule_matches))]
pub fn rule_matches(h: &Images<'_>, rule: &Rule, d: Day) -> bool
    requires { Asked h.now d × RuleOk rule.now }
    ensures { result ≡ rule_matches h.now rule.now d }
{
    date_lists::years_match(&rule.years[..rule.year_count], d)
        && date_lists::monthdays_match(&rule.monthdays[..rule.monthday_count], d)
        && date_lists::weeks_match(&rule.weeks[..rule.week_count], d)
        && weekdays_match(h, &rule.weekdays[..rule.weekday_count], d)
}

fn item_unknown(h: &Images<'_>, item: &WeekdayItem, d: Day) -> bool
    requires { Asked h.now d × WeekdayOk item.now }
    ensures { result ≡ item_unknown h.now item.now.form d }
{
    match item.form {
        WeekdayRange::Fixed { .. } => false,
        WeekdayRange::Holiday { school, offset } => in_image(
            h.unknown(school),
            date_items::shifted(d, offset),
        ),
    }
}

fn weekdays_unknown(h: &Images<'_>, items: &[WeekdayItem], d: Day) -> bool
    requires { Asked h.now d × All WeekdayOk items.now }
    ensures { result ≡ weekdays_unknown h.now items.now d }
{
    items.iter().any(|item| item_unknown(h, item, d))
}

// Asked of a rule that matches.
#[tactic(auto, unfolding(crate::specs::Filter::rule_unknown))]
pub fn rule_unknown(h: &Images<'_>, rule: &Rule, d: Day) -> bool
    requires { Asked h.now d × RuleOk rule.now }
    ensures { result ≡ rule_unknown h.now rule.now d }
{
    weekdays_unknown(h, &rule.weekdays[..rule.weekday_count], d)
}
