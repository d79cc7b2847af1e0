// The library's functions, as C and Rust call them (the exports are `kumolendi_c`'s). An answer is the refusal's number, 0 for none, in the upper half, and its place or the value in the lower.
#![tactic(auto)]

ghost use Rattle.std.specs.Prelude.{◌≡◌, ◌<◌};
ghost use Rattle.rule_image.specs.Reading.{verdict_on};
ghost use Rattle.holidays.specs.Answers.{check_answer, count_answer, first_answer};
ghost use Rattle.schedule.specs.Schedules.{build_of, addition_of};
ghost use Rattle.date_filter.specs.Filter.{images};
ghost use Rattle.next_change.specs.Answer.{change_answer};
ghost use Rattle.word_schedules.specs.Stored.{offered};
ghost use Rattle.kumolendi.specs.Packed.{packed, date_number, packed_rules, packed_check, packed_count, packed_first, dated, handed_over};
ghost use Rattle.kumolendi.specs.Answers.{Small, SmallChange, Stored, Listed, DayListed};

use calendar::Date;
use images::Images;
use next_change::{Change, Refused};
use refusals::Refusal;
use time_filter::Events;

// The next change: a refusal's number and place, 8 with the refused day's date; or the date and minute of the change, year 0 where there is none, and the days examined.
#[repr(C)]
#[derive(Clone, Copy)]
pub struct KumolendiChange {
    pub refusal: u32,
    pub place: u32,
    pub year: u32,
    pub month: u32,
    pub day: u32,
    pub minute: u32,
    pub examined: u32,
}

fn pack(answer: Result<usize, Refusal>) -> u64
    requires { Small answer }
    ensures { result ≡ packed answer }
{
    match answer {
        Ok(value) => value as u64,
        Err(refusal) => (refusal.cause.number() as u64) * 4294967296 + (refusal.place as u64),
    }
}

fn date_number(d: Date) -> u32
    requires { date_number d < 4294967296 }
    ensures { result ≡ date_number d }
{
    d.year * 512 + d.month * 32 + d.day
}

// A date's fields, or zeros where there is none.
fn dated(date: Option<Date>) -> KumolendiChange
    ensures { result ≡ dated date }
{
    let date = date.unwrap_or(Date {
        year: 0,
        month: 0,
        day: 0,
    });
    KumolendiChange {
        refusal: 0,
        place: 0,
        year: date.year,
        month: date.month,
        day: date.day,
        minute: 0,
        examined: 0,
    }
}

fn hand_over(answer: Result<Change, Refused>) -> KumolendiChange
    requires { SmallChange answer }
    ensures { result ≡ handed_over answer }
{
    match answer {
        Ok(change) => {
            let examined = change.examined;
            match change.at {
                Some(moment) => KumolendiChange {
                    minute: moment.minute,
                    examined,
                    ..dated(Some(moment.date))
                },
                None => KumolendiChange {
                    examined,
                    ..dated(None)
                },
            }
        }
        Err(refused) => KumolendiChange {
            refusal: refused.refusal.cause.number() as u32,
            place: refused.refusal.place as u32,
            ..dated(refused.date)
        },
    }
}

// Event times in minutes, 65535 for none.
pub fn kumolendi_list_day(
    rules: &[u8],
    dawn: u16,
    sunrise: u16,
    sunset: u16,
    dusk: u16,
    public: &[u8],
    public_unknown: &[u8],
    school: &[u8],
    school_unknown: &[u8],
    year: u32,
    month: u32,
    day: u32,
    out: &mut [u32],
) -> u64
    ensures { DayListed rules.now (record { dawn = dawn; sunrise = sunrise; sunset = sunset; dusk = dusk }) (images public.now public_unknown.now school.now school_unknown.now) (record { year = year; month = month; day = day }) out.old out.new result }
{
    let row = Events {
        dawn,
        sunrise,
        sunset,
        dusk,
    };
    let date = Date { year, month, day };
    let images = Images {
        public,
        public_unknown,
        school,
        school_unknown,
    };
    pack(day_listing::list_day(rules, row, &images, date, out))
}

pub fn kumolendi_next_change(
    rules: &[u8],
    dawn: u16,
    sunrise: u16,
    sunset: u16,
    dusk: u16,
    public: &[u8],
    public_unknown: &[u8],
    school: &[u8],
    school_unknown: &[u8],
    year: u32,
    month: u32,
    day: u32,
    minute: u32,
    days: u32,
) -> KumolendiChange
    ensures { result ≡ handed_over (change_answer rules.now (record { dawn = dawn; sunrise = sunrise; sunset = sunset; dusk = dusk }) (images public.now public_unknown.now school.now school_unknown.now) (record { year = year; month = month; day = day }) minute days) }
{
    let row = Events {
        dawn,
        sunrise,
        sunset,
        dusk,
    };
    let date = Date { year, month, day };
    let images = Images {
        public,
        public_unknown,
        school,
        school_unknown,
    };
    hand_over(next_change::next_change(rules, row, &images, date, minute, days))
}

pub fn kumolendi_check_rules(rules: &[u8]) -> u64
    ensures { result ≡ packed_rules (verdict_on rules.now) }
{
    pack(rule_image::check_sheet(rules))
}

pub fn kumolendi_check_holidays(image: &[u8]) -> u64
    ensures { result ≡ packed_check (check_answer image.now) }
{
    match holidays::check(image) {
        Ok(()) => pack(Ok(0)),
        Err(refusal) => pack(Err(refusal)),
    }
}

pub fn kumolendi_holidays_in_month(image: &[u8], year: u32, month: u32) -> u64
    ensures { result ≡ packed_count (count_answer image.now year month) }
{
    match holidays::count_in_month(image, year, month) {
        Ok(days) => pack(Ok(days as usize)),
        Err(refusal) => pack(Err(refusal)),
    }
}

pub fn kumolendi_first_holiday_after(image: &[u8], year: u32, month: u32, day: u32) -> u64
    ensures { result ≡ packed_first (first_answer image.now (record { year = year; month = month; day = day })) }
{
    let date = Date { year, month, day };
    match holidays::first_after(image, date) {
        Ok(Some(first)) => pack(Ok(date_number(first) as usize)),
        Ok(None) => pack(Ok(0)),
        Err(refused) => pack(Err(refused)),
    }
}

// Given ranges: start in the upper half of a word, end in the lower.
pub fn kumolendi_build(given: &[u32], kind: u8, comment: u8, out: &mut [u32]) -> u64
    ensures { Stored (build_of given.now kind comment) out.old out.new result }
{
    pack(word_schedules::build(given, kind, comment, out))
}

pub fn kumolendi_addition(a: &[u32], b: &[u32], out: &mut [u32]) -> u64
    ensures { Stored (addition_of (offered a.now) (offered b.now)) out.old out.new result }
{
    pack(word_schedules::addition(a, b, out))
}

pub fn kumolendi_listing(words: &[u32], out: &mut [u32]) -> u64
    ensures { Listed (offered words.now) out.old out.new result }
{
    pack(word_schedules::write_listing(words, out))
}
