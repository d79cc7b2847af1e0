// Spans of time on a day, from its event times.
#![tactic(auto)]

ghost use Rattle.std.specs.Prelude.{◌≡◌, not, ◌≤◌, get_or, position};
ghost use Rattle.time_filter.specs.Refusal.{event_time, event_refusal};
ghost use Rattle.time_filter.specs.Spans.{times, event_at, time_at, before, summer, morning, not_after, start_missing, end_missing, both_missing, filled_span, later_end, interval_of};
ghost use Rattle.time_filter.specs.Cuts.{in_day, cut_of, cuts_of};

use days::Day;
use extended_time::ExtendedTime;
use refusals::{Cause, Refusal};
use rules::{Rule, Time, TimeSpan};

// A day's event times: minutes 0 to 1439, or 65535 for none.
#[derive(Clone, Copy)]
pub struct Events {
    pub dawn: u16,
    pub sunrise: u16,
    pub sunset: u16,
    pub dusk: u16,
}

#[tactic(auto, unfolding(crate::specs::Refusal::event_time))]
fn is_bad(time: u16) -> bool
    ensures { result ≡ not (event_time time) }
{
    1439 < time && time != 65535
}

fn lowest_bad(times: &[u16]) -> Option<usize>
    ensures { result ≡ position (λ t. not (event_time t)) times.now }
{
    times.iter().position(|time| is_bad(*time))
}

pub fn check_events(row: Events) -> Result<(), Refusal>
    ensures { result ≡ event_refusal row }
{
    match lowest_bad(&[row.dawn, row.sunrise, row.sunset, row.dusk]) {
        Some(event) => Err(Refusal {
            cause: Cause::BadEvent,
            place: event,
        }),
        None => Ok(()),
    }
}

fn event_minutes(row: Events, event: u8) -> u16
    ensures { result ≡ get_or (times row) event 65535 }
{
    match event {
        0 => row.dawn,
        1 => row.sunrise,
        2 => row.sunset,
        3 => row.dusk,
        _ => 65535,
    }
}

#[tactic(auto, unfolding(crate::specs::Spans::event_at))]
fn event_time(row: Events, event: u8) -> Option<ExtendedTime>
    ensures { result ≡ event_at row event }
{
    ExtendedTime::from_mins_from_midnight(event_minutes(row, event))
}

#[tactic(auto, unfolding(crate::specs::Spans::time_at, crate::specs::Spans::after))]
fn time_at(row: Events, time: Time) -> Option<ExtendedTime>
    ensures { result ≡ time_at row time }
{
    match time {
        Time::Fixed(minutes) => ExtendedTime::from_mins_from_midnight(minutes),
        Time::Variable { event, offset } => event_time(row, event)?.add_minutes(offset),
    }
}

#[tactic(auto, unfolding(crate::specs::Spans::before))]
fn is_before(day: Day, month: u32, date: u32) -> bool
    ensures { result ≡ before month date day }
{
    (day.month, day.day) < (month, date)
}

#[tactic(auto, unfolding(crate::specs::Spans::summer))]
fn is_summer(day: Day) -> bool
    ensures { result ≡ summer day }
{
    !is_before(day, 3, 20) && is_before(day, 9, 22)
}

#[tactic(auto, unfolding(crate::specs::Spans::morning))]
fn is_morning(time: Time) -> bool
    ensures { result ≡ morning time }
{
    match time {
        Time::Fixed(_) => false,
        Time::Variable { event, .. } => event <= 1,
    }
}

#[tactic(auto, unfolding(crate::specs::Spans::not_after))]
fn is_not_after(start: Time, end: Time) -> bool
    ensures { result ≡ not_after start end }
{
    match (start, end) {
        (
            Time::Variable {
                event: e,
                offset: y,
            },
            Time::Variable {
                event: f,
                offset: z,
            },
        ) => (e, y) <= (f, z),
        _ => false,
    }
}

// Minutes of the span's own day, from `start` up to, not including, `end`; the next day's go on from 1440.
#[derive(Clone, Copy)]
pub struct Interval {
    pub start: u16,
    pub end: u16,
}

#[tactic(auto, unfolding(crate::specs::Spans::start_missing))]
fn start_missing(summer: bool, start: Time, end: u16) -> Option<Interval>
    ensures { result ≡ start_missing summer start end }
{
    (is_morning(start) == summer).then_some(Interval { start: 0, end })
}

#[tactic(auto, unfolding(crate::specs::Spans::end_missing))]
fn end_missing(summer: bool, end: Time, start: u16) -> Option<Interval>
    ensures { result ≡ end_missing summer end start }
{
    (is_morning(end) != summer).then_some(Interval { start, end: 1440 })
}

#[tactic(auto, unfolding(crate::specs::Spans::both_missing))]
fn both_missing(summer: bool, start: Time, end: Time) -> Option<Interval>
    ensures { result ≡ both_missing summer start end }
{
    (is_not_after(start, end) == summer).then_some(Interval {
        start: 0,
        end: 1440,
    })
}

#[tactic(auto, unfolding(crate::specs::Spans::filled_span))]
fn filled(
    summer: bool,
    span: TimeSpan,
    first: Option<ExtendedTime>,
    last: Option<ExtendedTime>,
) -> Option<Interval>
    ensures { result ≡ filled_span summer span first last }
{
    match (first, last) {
        (Some(x), Some(y)) => Some(Interval {
            start: x.mins_from_midnight(),
            end: y.mins_from_midnight(),
        }),
        (Some(x), None) => end_missing(summer, span.end, x.mins_from_midnight()),
        (None, Some(y)) => start_missing(summer, span.start, y.mins_from_midnight()),
        (None, None) => both_missing(summer, span.start, span.end),
    }
}

#[tactic(auto, unfolding(crate::specs::Spans::later_end))]
fn later_end(start: u16, end: u16) -> u16
    ensures { result ≡ later_end start end }
{
    if start < end {
        end
    } else {
        end.saturating_add(1440).min(2880)
    }
}

// A span on its own day, with that day's event times.
#[tactic(auto, unfolding(crate::specs::Spans::interval_of, crate::specs::Spans::wrapped_end))]
pub fn as_naive(row: Events, day: Day, span: TimeSpan) -> Option<Interval>
    ensures { result ≡ interval_of row day span }
{
    let first = time_at(row, span.start);
    let last = time_at(row, span.end);
    let Interval { start, end } = filled(is_summer(day), span, first, last)?;
    Some(Interval {
        start,
        end: later_end(start, end),
    })
}

#[tactic(auto, unfolding(crate::specs::Cuts::in_day))]
fn in_day(d: u16, t: u16) -> u16
    ensures { result ≡ in_day d t }
{
    t.saturating_sub(d).min(1440)
}

#[tactic(auto, unfolding(crate::specs::Cuts::cut_of))]
fn cut(d: u16, interval: Option<Interval>) -> u32
    ensures { result ≡ cut_of d interval }
{
    let Some(interval) = interval else {
        return 0;
    };
    let start = u32::from(in_day(d, interval.start));
    let end = u32::from(in_day(d, interval.end));
    start * 65536 + end
}

// What a rule's spans leave of a day: a word for each span, start in the upper half, end in the lower.
#[derive(Clone, Copy)]
pub struct Cuts {
    pub count: usize,
    pub words: [u32; 8],
}

// The spans of a rule on `day`, cut to the day that begins d minutes after it.
pub fn cut_spans(row: Events, day: Day, d: u16, rule: Rule) -> Cuts
    requires { rule.span_count ≤ 8 }
    ensures { result ≡ cuts_of row day d rule }
{
    let count = rule.span_count;
    let mut words = [0; 8];
    for (i, span) in rule.spans[..count].iter().enumerate() {
        words[i] = cut(d, as_naive(row, day, *span));
    }
    Cuts { count, words }
}
