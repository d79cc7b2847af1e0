// The exports for C and Rust: each is the function of `kumolendi` of its name.
#![tactic(auto)]

ghost use Rattle.std.specs.Prelude.{◌≡◌};
ghost use Rattle.rule_image.specs.Reading.{verdict_on};
ghost use Rattle.holidays.specs.Answers.{check_answer, count_answer, first_answer};
ghost use Rattle.schedule.specs.Schedules.{build_of, addition_of};
ghost use Rattle.date_filter.specs.Filter.{images};
ghost use Rattle.next_change.specs.Answer.{change_answer};
ghost use Rattle.word_schedules.specs.Stored.{offered};
ghost use Rattle.kumolendi.specs.Packed.{packed_rules, packed_check, packed_count, packed_first, handed_over};
ghost use Rattle.kumolendi.specs.Answers.{Stored, Listed, DayListed};

use kumolendi::KumolendiChange;

// Event times in minutes, 65535 for none.
#[unsafe(no_mangle)]
pub extern "C" fn kumolendi_list_day(
    rules: &[u8],
    dawn: u16,
    sunrise: u16,
    sunset: u16,
    dusk: u16,
    public: &[u8],
    public_unknown: &[u8],
    school: &[u8],
    school_unknown: &[u8],
    year: u32,
    month: u32,
    day: u32,
    out: &mut [u32],
) -> u64
    ensures { DayListed rules.now (record { dawn = dawn; sunrise = sunrise; sunset = sunset; dusk = dusk }) (images public.now public_unknown.now school.now school_unknown.now) (record { year = year; month = month; day = day }) out.old out.new result }
{
    kumolendi::kumolendi_list_day(
        rules,
        dawn,
        sunrise,
        sunset,
        dusk,
        public,
        public_unknown,
        school,
        school_unknown,
        year,
        month,
        day,
        &mut *out,
    )
}

#[unsafe(no_mangle)]
pub extern "C" fn kumolendi_next_change(
    rules: &[u8],
    dawn: u16,
    sunrise: u16,
    sunset: u16,
    dusk: u16,
    public: &[u8],
    public_unknown: &[u8],
    school: &[u8],
    school_unknown: &[u8],
    year: u32,
    month: u32,
    day: u32,
    minute: u32,
    days: u32,
) -> KumolendiChange
    ensures { result ≡ handed_over (change_answer rules.now (record { dawn = dawn; sunrise = sunrise; sunset = sunset; dusk = dusk }) (images public.now public_unknown.now school.now school_unknown.now) (record { year = year; month = month; day = day }) minute days) }
{
    kumolendi::kumolendi_next_change(
        rules,
        dawn,
        sunrise,
        sunset,
        dusk,
        public,
        public_unknown,
        school,
        school_unknown,
        year,
        month,
        day,
        minute,
        days,
    )
}

#[unsafe(no_mangle)]
pub extern "C" fn kumolendi_check_rules(rules: &[u8]) -> u64
    ensures { result ≡ packed_rules (verdict_on rules.now) }
{
    kumolendi::kumolendi_check_rules(rules)
}

#[unsafe(no_mangle)]
pub extern "C" fn kumolendi_check_holidays(image: &[u8]) -> u64
    ensures { result ≡ packed_check (check_answer image.now) }
{
    kumolendi::kumolendi_check_holidays(image)
}

#[unsafe(no_mangle)]
pub extern "C" fn kumolendi_holidays_in_month(image: &[u8], year: u32, month: u32) -> u64
    ensures { result ≡ packed_count (count_answer image.now year month) }
{
    kumolendi::kumolendi_holidays_in_month(image, year, month)
}

#[unsafe(no_mangle)]
pub extern "C" fn kumolendi_first_holiday_after(
    image: &[u8],
    year: u32,
    month: u32,
    day: u32,
) -> u64
    ensures { result ≡ packed_first (first_answer image.now (record { year = year; month = month; day = day })) }
{
    kumolendi::kumolendi_first_holiday_after(image, year, month, day)
}

// Given ranges: start in the upper half of a word, end in the lower.
#[unsafe(no_mangle)]
pub extern "C" fn kumolendi_build(given: &[u32], kind: u8, comment: u8, out: &mut [u32]) -> u64
    ensures { Stored (build_of given.now kind comment) out.old out.new result }
{
    kumolendi::kumolendi_build(given, kind, comment, &mut *out)
}

#[unsafe(no_mangle)]
pub extern "C" fn kumolendi_addition(a: &[u32], b: &[u32], out: &mut [u32]) -> u64
    ensures { Stored (addition_of (offered a.now) (offered b.now)) out.old out.new result }
{
    kumolendi::kumolendi_addition(a, b, &mut *out)
}

#[unsafe(no_mangle)]
pub extern "C" fn kumolendi_listing(words: &[u32], out: &mut [u32]) -> u64
    ensures { Listed (offered words.now) out.old out.new result }
{
    kumolendi::kumolendi_listing(words, &mut *out)
}
