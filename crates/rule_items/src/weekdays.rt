// Weekday items.
ghost use Rattle.std.specs.Prelude.{◌<◌, ◌^◌};
ghost use Rattle.bits.specs.Place.{At, bit_of, Found, FoundFrom};
ghost use Rattle.rule_items.specs.Weekdays.{fixed_weekdays, holiday_form, weekday_item_at};

use bits::Reading;
use bits::standing::{Place, Refuses};
use refusals::{Cause, Refusal};
use rules::{WeekdayItem, WeekdayRange};

fn fixed_weekdays(image: &[u8], at: usize) -> Result<Reading<WeekdayItem>, Refusal>
    requires { at < 2 ^ 30 }
    ensures { Found result (fixed_weekdays image.now (At at)) at 26 }
{
    let start = crate::codes::weekday_from(image, at)?;
    let end = crate::codes::weekday_from(image, start.end)?;
    let from_start = bits::number(image, end.end, 5, 0, 31, Cause::PastLimits)?;
    let from_end = bits::number(image, from_start.end, 5, 0, 31, Cause::PastLimits)?;
    let offset = bits::signed_number(image, from_end.end, 10, 1024, 366)?;
    Ok(Reading {
        item: WeekdayItem {
            form: WeekdayRange::Fixed {
                start: start.item as u8,
                end: end.item as u8,
                from_start: from_start.item as u8,
                from_end: from_end.item as u8,
                offset: offset.item,
            },
        },
        end: offset.end,
    })
}

fn holiday(image: &[u8], at: usize) -> Result<Reading<WeekdayItem>, Refusal>
    requires { at < 2 ^ 30 }
    ensures { Found result (holiday_form image.now (At at)) at 26 }
{
    let school = bits::number(image, at, 1, 0, 1, Cause::PastLimits)?;
    let offset = bits::signed_number(image, school.end, 10, 1024, 366)?;
    Ok(Reading {
        item: WeekdayItem {
            form: WeekdayRange::Holiday {
                school: school.item == 1,
                offset: offset.item,
            },
        },
        end: offset.end,
    })
}

fn weekday_item_from(image: &[u8], at: usize) -> Result<Reading<WeekdayItem>, Refusal>
    requires { at < 2 ^ 29 }
    ensures { Found result (weekday_item_at image.now (At at)) at 27 }
{
    let tag = bits::number(image, at, 1, 0, 1, Cause::NoMeaning)?;
    match tag.item {
        0 => fixed_weekdays(image, tag.end),
        _ => holiday(image, tag.end),
    }
}

pub fn weekday_item<P: Place>(image: &[u8], at: P) -> Result<Reading<WeekdayItem>, P::Refusal>
    requires { bit_of (P.given at) < 2 ^ 29 }
    ensures { FoundFrom P.Refusal.says P.Refusal.refuses result (P.given at) (weekday_item_at image.now) 27 }
{
    P::Refusal::state(weekday_item_from(image, at.bit()?))
}
