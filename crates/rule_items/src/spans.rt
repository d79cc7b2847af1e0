// Spans: two times.
ghost use Rattle.std.specs.Prelude.{◌<◌, ◌^◌};
ghost use Rattle.bits.specs.Place.{At, bit_of, Found, FoundFrom};
ghost use Rattle.rule_items.specs.Spans.{fixed_time, variable_time, time_at, span_at};

use bits::Reading;
use bits::standing::{Place, Refuses};
use refusals::{Cause, Refusal};
use rules::{Time, TimeSpan};

fn fixed_time(image: &[u8], at: usize) -> Result<Reading<Time>, Refusal>
    requires { at < 2 ^ 31 }
    ensures { Found result (fixed_time image.now (At at)) at 14 }
{
    let minute = bits::number(image, at, 12, 0, 2880, Cause::PastLimits)?;
    Ok(Reading {
        item: Time::Fixed(minute.item as u16),
        end: minute.end,
    })
}

fn variable_time(image: &[u8], at: usize) -> Result<Reading<Time>, Refusal>
    requires { at < 2 ^ 31 }
    ensures { Found result (variable_time image.now (At at)) at 14 }
{
    let event = bits::number(image, at, 2, 0, 3, Cause::PastLimits)?;
    let offset = bits::signed_number(image, event.end, 12, 4096, 1440)?;
    Ok(Reading {
        item: Time::Variable {
            event: event.item as u8,
            offset: offset.item,
        },
        end: offset.end,
    })
}

fn time(image: &[u8], at: usize) -> Result<Reading<Time>, Refusal>
    requires { at < 2 ^ 30 }
    ensures { Found result (time_at image.now (At at)) at 15 }
{
    let tag = bits::number(image, at, 1, 0, 1, Cause::NoMeaning)?;
    match tag.item {
        0 => fixed_time(image, tag.end),
        _ => variable_time(image, tag.end),
    }
}

fn span_from(image: &[u8], at: usize) -> Result<Reading<TimeSpan>, Refusal>
    requires { at < 2 ^ 29 }
    ensures { Found result (span_at image.now (At at)) at 30 }
{
    let start = time(image, at)?;
    let end = time(image, start.end)?;
    Ok(Reading {
        item: TimeSpan {
            start: start.item,
            end: end.item,
        },
        end: end.end,
    })
}

pub fn span<P: Place>(image: &[u8], at: P) -> Result<Reading<TimeSpan>, P::Refusal>
    requires { bit_of (P.given at) < 2 ^ 29 }
    ensures { FoundFrom P.Refusal.says P.Refusal.refuses result (P.given at) (span_at image.now) 30 }
{
    P::Refusal::state(span_from(image, at.bit()?))
}
