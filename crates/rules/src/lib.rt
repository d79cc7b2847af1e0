// The rules of a sheet, by value. Counted lists are arrays with a count; what stands behind the count is fixed.
// A year of 0 is a date without a year.
#![tactic(auto)]

ghost use Rattle.std.specs.Prelude.{◌≡◌};
ghost use Rattle.rules.specs.Nothing.{no_year, no_monthday, no_week, no_weekday, no_span, no_rule};

// What a rule does to the evaluation of the rules before it.
#[derive(Clone, Copy)]
pub enum Operator {
    Normal,
    Additional,
    Fallback,
}

// One of three forms of a date; weekday 0 is Monday.
#[derive(Clone, Copy)]
pub enum Date {
    Fixed {
        year: u16,
        month: u8,
        day: u8,
    },
    Weekday {
        year: u16,
        month: u8,
        weekday: u8,
        nth: i16,
    },
    Easter {
        year: u16,
    },
}

#[derive(Clone, Copy)]
pub struct DateOffset {
    pub date: Date,
    pub offset: i16,
}

#[derive(Clone, Copy)]
pub enum Monthday {
    Months { start: u8, end: u8 },
    YearMonths { year: u16, start: u8, end: u8 },
    Dates { start: DateOffset, end: DateOffset },
}

// A struct around the enum: a field may be an array of structs, not of enums.
#[derive(Clone, Copy)]
pub struct MonthdayItem {
    pub form: Monthday,
}

#[derive(Clone, Copy)]
pub struct YearItem {
    pub start: u16,
    pub end: u16,
    pub step: u16,
}

#[derive(Clone, Copy)]
pub struct WeekItem {
    pub start: u8,
    pub end: u8,
    pub step: u8,
}

// The nth flags are five bits, index 0 the highest.
#[derive(Clone, Copy)]
pub enum WeekdayRange {
    Fixed {
        start: u8,
        end: u8,
        from_start: u8,
        from_end: u8,
        offset: i16,
    },
    Holiday {
        school: bool,
        offset: i16,
    },
}

#[derive(Clone, Copy)]
pub struct WeekdayItem {
    pub form: WeekdayRange,
}

// A minute of the day, or an event (0 dawn, 1 sunrise, 2 sunset, 3 dusk) and minutes after it.
#[derive(Clone, Copy)]
pub enum Time {
    Fixed(u16),
    Variable { event: u8, offset: i16 },
}

#[derive(Clone, Copy)]
pub struct TimeSpan {
    pub start: Time,
    pub end: Time,
}

// Kinds: 0 open, 1 closed, 2 unknown.
#[derive(Clone, Copy)]
pub struct Rule {
    pub operator: Operator,
    pub kind: u8,
    pub comment: u8,
    pub year_count: usize,
    pub monthday_count: usize,
    pub week_count: usize,
    pub weekday_count: usize,
    pub span_count: usize,
    pub years: [YearItem; 8],
    pub monthdays: [MonthdayItem; 8],
    pub weeks: [WeekItem; 8],
    pub weekdays: [WeekdayItem; 8],
    pub spans: [TimeSpan; 8],
}

#[derive(Clone, Copy)]
pub struct Sheet {
    pub count: usize,
    pub rules: [Rule; 32],
}

// What stands behind the counts.
pub fn no_year() -> YearItem
    ensures { result ≡ no_year }
{
    YearItem {
        start: 0,
        end: 0,
        step: 0,
    }
}

pub fn no_monthday() -> MonthdayItem
    ensures { result ≡ no_monthday }
{
    MonthdayItem {
        form: Monthday::Months { start: 0, end: 0 },
    }
}

pub fn no_week() -> WeekItem
    ensures { result ≡ no_week }
{
    WeekItem {
        start: 0,
        end: 0,
        step: 0,
    }
}

pub fn no_weekday() -> WeekdayItem
    ensures { result ≡ no_weekday }
{
    WeekdayItem {
        form: WeekdayRange::Holiday {
            school: false,
            offset: 0,
        },
    }
}

pub fn no_span() -> TimeSpan
    ensures { result ≡ no_span }
{
    TimeSpan {
        start: Time::Fixed(0),
        end: Time::Fixed(0),
    }
}

pub fn no_rule() -> Rule
    ensures { result ≡ no_rule }
{
    let year = no_year();
    let monthday = no_monthday();
    let week = no_week();
    let weekday = no_weekday();
    let span = no_span();
    Rule {
        operator: Operator::Normal,
        kind: 0,
        comment: 0,
        year_count: 0,
        monthday_count: 0,
        week_count: 0,
        weekday_count: 0,
        span_count: 0,
        years: [year; 8],
        monthdays: [monthday; 8],
        weeks: [week; 8],
        weekdays: [weekday; 8],
        spans: [span; 8],
    }
}
