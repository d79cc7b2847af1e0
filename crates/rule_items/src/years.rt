// Year and week items.
ghost use Rattle.std.specs.Prelude.{◌<◌, ◌^◌};
ghost use Rattle.bits.specs.Place.{At, bit_of, Found, FoundFrom};
ghost use Rattle.rule_items.specs.Years.{year_at, week_at};

use bits::Reading;
use bits::standing::{Place, Refuses};
use refusals::{Cause, Refusal};
use rules::{WeekItem, YearItem};

fn year_from(image: &[u8], at: usize) -> Result<Reading<YearItem>, Refusal>
    requires { at < 2 ^ 31 }
    ensures { Found result (year_at image.now (At at)) at 42 }
{
    let start = bits::number(image, at, 14, 1900, 9999, Cause::PastLimits)?;
    let end = bits::number(image, start.end, 14, 1900, 9999, Cause::PastLimits)?;
    let step = bits::number(image, end.end, 14, 1, 9999, Cause::PastLimits)?;
    Ok(Reading {
        item: YearItem {
            start: start.item as u16,
            end: end.item as u16,
            step: step.item as u16,
        },
        end: step.end,
    })
}

pub fn year<P: Place>(image: &[u8], at: P) -> Result<Reading<YearItem>, P::Refusal>
    requires { bit_of (P.given at) < 2 ^ 31 }
    ensures { FoundFrom P.Refusal.says P.Refusal.refuses result (P.given at) (year_at image.now) 42 }
{
    P::Refusal::state(year_from(image, at.bit()?))
}

fn week_from(image: &[u8], at: usize) -> Result<Reading<WeekItem>, Refusal>
    requires { at < 2 ^ 31 }
    ensures { Found result (week_at image.now (At at)) at 18 }
{
    let start = bits::number(image, at, 6, 1, 53, Cause::PastLimits)?;
    let end = bits::number(image, start.end, 6, 1, 53, Cause::PastLimits)?;
    let step = bits::number(image, end.end, 6, 1, 53, Cause::PastLimits)?;
    Ok(Reading {
        item: WeekItem {
            start: start.item as u8,
            end: end.item as u8,
            step: step.item as u8,
        },
        end: step.end,
    })
}

pub fn week<P: Place>(image: &[u8], at: P) -> Result<Reading<WeekItem>, P::Refusal>
    requires { bit_of (P.given at) < 2 ^ 31 }
    ensures { FoundFrom P.Refusal.says P.Refusal.refuses result (P.given at) (week_at image.now) 18 }
{
    P::Refusal::state(week_from(image, at.bit()?))
}
