// The next change from a moment: each day in turn, from the asked one on.
#![tactic(auto)]

ghost use Rattle.std.specs.Prelude.{◌≡◌, Some, ◌≤◌, ◌<◌};
ghost use Rattle.calendar.specs.Calendar.{date_of};
ghost use Rattle.days.specs.DayOf.{day_of};
ghost use Rattle.changes.specs.Search.{next_change};
ghost use Rattle.changes.specs.Words.{Ordered};
ghost use Rattle.next_change.specs.Shop.{shop_day};
ghost use Rattle.next_change.specs.Answer.{can_ask, undated, change_of, change_answer};
ghost use Rattle.next_change.specs.Looking.{from, look_for, look_in, Searchable};

use calendar::Date;
use days::Day;
use images::Images;
use refusals::{Cause, Refusal};
use rules::Sheet;
use time_filter::Events;

#[derive(Clone, Copy)]
pub struct Moment {
    pub date: Date,
    pub minute: u32,
}

// The change, where there is one, and the days examined.
#[derive(Clone, Copy)]
pub struct Change {
    pub at: Option<Moment>,
    pub examined: u32,
}

// A refusal, with the date of the day that is refused, where it is one.
#[derive(Clone, Copy)]
pub struct Refused {
    pub refusal: Refusal,
    pub date: Option<Date>,
}

impl From<Refusal> for Refused {
    ghost from_gives = { λ f r. r ≡ undated f };

    fn from(refusal: Refusal) -> Refused {
        Refused {
            refusal,
            date: None,
        }
    }
}

// Since when a state holds: a minute of the day that is looked at, or a day before, with the state's word.
#[derive(Clone, Copy)]
enum Since {
    Minute(u32),
    Before(u32),
}

// A state, and the first minute of a day that doesn't show it, where there is one.
#[derive(Clone, Copy)]
struct Look {
    state: u32,
    minute: Option<u32>,
}

#[tactic(auto, unfolding(days::specs::DayOf::day_of))]
fn date_of(d: Day) -> Date
    requires { d ≡ day_of d.number }
    ensures { result ≡ date_of d.number }
{
    Date {
        year: d.year,
        month: d.month,
        day: d.day,
    }
}

// A refusal of a day, with its date.
fn refused_on(date: Date, refusal: Refusal) -> Refused
    ensures { result ≡ record { refusal = refusal; date = Some date } }
{
    Refused {
        refusal,
        date: Some(date),
    }
}

// A look at a day's words, from minute t on, for the state of s.
fn look_from(words: &[u32], s: u32, t: u32) -> Look
    requires { Ordered words.now × (t ≤ 1440) }
    ensures { result ≡ look_for words.now s t }
{
    Look {
        state: s,
        minute: changes::first_other(words, s, t),
    }
}

// A look at a day's words, since a minute of the day or a day before.
fn look_at(words: &[u32], since: Since) -> Look
    requires { Ordered words.now × (from since ≤ 1440) }
    ensures { result ≡ look_in words.now since }
{
    match since {
        Since::Minute(t) => look_from(words, listing::state_at(words, t), t + 1),
        Since::Before(s) => look_from(words, s, 0),
    }
}

// The days from d on, the first behind the minute, until one decides.
fn change_within(
    h: &Images<'_>,
    row: Events,
    sheet: &Sheet,
    d: Day,
    minute: u32,
    count: u32,
) -> Result<Change, Refused>
    requires { Searchable h.now sheet.now d count × (minute < 1440) }
    ensures { result ≡ change_of (next_change (shop_day h.now row sheet.now) d.number minute count) }
{
    let mut room = [0; 192];
    let mut day = d;
    let mut since = Since::Minute(minute);
    for i in 0..count {
        let date = date_of(day);
        let n = match opening_hours::schedule_at(h, row, day, sheet, &mut room) {
            Ok(n) => n,
            Err(refusal) => return Err(refused_on(date, refusal)),
        };
        let look = look_at(&room[..n], since);
        if let Some(minute) = look.minute {
            return Ok(Change {
                at: Some(Moment { date, minute }),
                examined: i + 1,
            });
        }
        day = changes::day_after(day);
        since = Since::Before(look.state);
    }
    Ok(Change {
        at: None,
        examined: count,
    })
}

#[tactic(auto, unfolding(crate::specs::Answer::can_ask))]
fn can_ask(date: Date, minute: u32, days: u32) -> bool
    ensures { result ≡ can_ask date minute days }
{
    dates::exists(date) && minute <= 1439 && days <= 3660
}

// The first later minute of another state than the one at the minute of the date, within so many days, 0 for 366, the date's included.
#[tactic(auto, unfolding(crate::specs::Answer::change_answer))]
pub fn next_change(
    rules: &[u8],
    row: Events,
    h: &Images<'_>,
    date: Date,
    minute: u32,
    days: u32,
) -> Result<Change, Refused>
    ensures { result ≡ change_answer rules.now row h.now date minute days }
{
    let sheet = inputs::read_inputs(rules, row, h)?;
    if !can_ask(date, minute, days) {
        return Err(Refused::from(Refusal {
            cause: Cause::NoDate,
            place: 0,
        }));
    }
    let day = days::day_on(date);
    change_within(
        h,
        row,
        &sheet,
        day,
        minute,
        changes::days_within(days, day.number),
    )
}
