// Dates, dates with an offset, and monthday items.
ghost use Rattle.std.specs.Prelude.{◌<◌, ◌^◌, IfOk};
ghost use Rattle.bits.specs.Place.{At, bit_of, Found, FoundFrom};
ghost use Rattle.rule_items.specs.Dates.{flagged_year, fixed_date, nth_date, easter_date, date_at};
ghost use Rattle.rule_items.specs.Dates.{date_offset, months_form, year_months_form, dates_form, monthday_at};

use bits::Reading;
use bits::standing::{Place, Refuses};
use refusals::{Cause, Refusal};
use rules::{Date, DateOffset, Monthday, MonthdayItem};

// A year, or 0 where its flag is not set.
fn flagged_year(image: &[u8], at: usize) -> Result<Reading<u32>, Refusal>
    requires { at < 2 ^ 31 }
    ensures found { Found result (flagged_year image.now (At at)) at 15 }
    ensures value_bound { IfOk result (λ r. r.item < 2 ^ 14) }
{
    let flag = bits::number(image, at, 1, 0, 1, Cause::PastLimits)?;
    let f = flag.item;
    bits::number(image, flag.end, 14, 1900 * f, 9999 * f, Cause::PastLimits)
}

fn fixed_date(image: &[u8], at: usize) -> Result<Reading<Date>, Refusal>
    requires { at < 2 ^ 30 }
    ensures { Found result (fixed_date image.now (At at)) at 26 }
{
    let year = flagged_year(image, at)?;
    let month = bits::number(image, year.end, 4, 1, 12, Cause::PastLimits)?;
    let day = bits::number(image, month.end, 5, 1, 31, Cause::PastLimits)?;
    Ok(Reading {
        item: Date::Fixed {
            year: year.item as u16,
            month: month.item as u8,
            day: day.item as u8,
        },
        end: day.end,
    })
}

fn nth_date(image: &[u8], at: usize) -> Result<Reading<Date>, Refusal>
    requires { at < 2 ^ 30 }
    ensures { Found result (nth_date image.now (At at)) at 26 }
{
    let year = flagged_year(image, at)?;
    let month = bits::number(image, year.end, 4, 1, 12, Cause::PastLimits)?;
    let weekday = crate::codes::weekday_from(image, month.end)?;
    let nth = bits::signed_number(image, weekday.end, 4, 16, 8)?;
    Ok(Reading {
        item: Date::Weekday {
            year: year.item as u16,
            month: month.item as u8,
            weekday: weekday.item as u8,
            nth: nth.item,
        },
        end: nth.end,
    })
}

fn easter_date(image: &[u8], at: usize) -> Result<Reading<Date>, Refusal>
    requires { at < 2 ^ 30 }
    ensures { Found result (easter_date image.now (At at)) at 26 }
{
    let year = flagged_year(image, at)?;
    Ok(Reading {
        item: Date::Easter {
            year: year.item as u16,
        },
        end: year.end,
    })
}

fn date_from(image: &[u8], at: usize) -> Result<Reading<Date>, Refusal>
    requires { at < 2 ^ 29 }
    ensures { Found result (date_at image.now (At at)) at 28 }
{
    let tag = bits::number(image, at, 2, 0, 3, Cause::NoMeaning)?;
    match tag.item {
        0 => fixed_date(image, tag.end),
        1 => nth_date(image, tag.end),
        2 => easter_date(image, tag.end),
        _ => Err(Refusal {
            cause: Cause::NoMeaning,
            place: at,
        }),
    }
}

pub fn date<P: Place>(image: &[u8], at: P) -> Result<Reading<Date>, P::Refusal>
    requires { bit_of (P.given at) < 2 ^ 29 }
    ensures { FoundFrom P.Refusal.says P.Refusal.refuses result (P.given at) (date_at image.now) 28 }
{
    P::Refusal::state(date_from(image, at.bit()?))
}

// The edition decides what stands behind the offset: in edition 1 nothing.
fn date_offset_from(image: &[u8], at: usize, edition: u32) -> Result<Reading<DateOffset>, Refusal>
    requires { at < 2 ^ 28 }
    ensures { Found result (date_offset image.now edition (At at)) at 38 }
{
    let date = date_from(image, at)?;
    let offset = bits::signed_number(image, date.end, 10, 1024, 366)?;
    Ok(Reading {
        item: DateOffset {
            date: date.item,
            offset: offset.item,
        },
        end: offset.end,
    })
}

pub fn date_offset<P: Place>(
    image: &[u8],
    at: P,
    edition: u32,
) -> Result<Reading<DateOffset>, P::Refusal>
    requires { bit_of (P.given at) < 2 ^ 28 }
    ensures { FoundFrom P.Refusal.says P.Refusal.refuses result (P.given at) (date_offset image.now edition) 38 }
{
    P::Refusal::state(date_offset_from(image, at.bit()?, edition))
}

fn months(image: &[u8], at: usize) -> Result<Reading<MonthdayItem>, Refusal>
    requires { at < 2 ^ 27 }
    ensures { Found result (months_form image.now (At at)) at 76 }
{
    let start = bits::number(image, at, 4, 1, 12, Cause::PastLimits)?;
    let end = bits::number(image, start.end, 4, 1, 12, Cause::PastLimits)?;
    Ok(Reading {
        item: MonthdayItem {
            form: Monthday::Months {
                start: start.item as u8,
                end: end.item as u8,
            },
        },
        end: end.end,
    })
}

fn year_months(image: &[u8], at: usize) -> Result<Reading<MonthdayItem>, Refusal>
    requires { at < 2 ^ 27 }
    ensures { Found result (year_months_form image.now (At at)) at 76 }
{
    let year = bits::number(image, at, 14, 1900, 9999, Cause::PastLimits)?;
    let start = bits::number(image, year.end, 4, 1, 12, Cause::PastLimits)?;
    let end = bits::number(image, start.end, 4, 1, 12, Cause::PastLimits)?;
    Ok(Reading {
        item: MonthdayItem {
            form: Monthday::YearMonths {
                year: year.item as u16,
                start: start.item as u8,
                end: end.item as u8,
            },
        },
        end: end.end,
    })
}

fn dates(image: &[u8], at: usize, edition: u32) -> Result<Reading<MonthdayItem>, Refusal>
    requires { at < 2 ^ 27 }
    ensures { Found result (dates_form image.now edition (At at)) at 76 }
{
    let start = date_offset_from(image, at, edition)?;
    let end = date_offset_from(image, start.end, edition)?;
    Ok(Reading {
        item: MonthdayItem {
            form: Monthday::Dates {
                start: start.item,
                end: end.item,
            },
        },
        end: end.end,
    })
}

fn monthday_from(image: &[u8], at: usize, edition: u32) -> Result<Reading<MonthdayItem>, Refusal>
    requires { at < 2 ^ 26 }
    ensures { Found result (monthday_at image.now edition (At at)) at 78 }
{
    let tag = bits::number(image, at, 2, 0, 3, Cause::NoMeaning)?;
    match tag.item {
        0 => months(image, tag.end),
        1 => year_months(image, tag.end),
        2 => dates(image, tag.end, edition),
        _ => Err(Refusal {
            cause: Cause::NoMeaning,
            place: at,
        }),
    }
}

pub fn monthday<P: Place>(
    image: &[u8],
    at: P,
    edition: u32,
) -> Result<Reading<MonthdayItem>, P::Refusal>
    requires { bit_of (P.given at) < 2 ^ 26 }
    ensures { FoundFrom P.Refusal.says P.Refusal.refuses result (P.given at) (monthday_at image.now edition) 78 }
{
    P::Refusal::state(monthday_from(image, at.bit()?, edition))
}
