// The next change: over how many days, within one day's ranges, and the day behind a day.
#![tactic(auto)]

ghost use Rattle.std.specs.Prelude.{◌≡◌, ◌+◌, ◌-◌, ◌≤◌, ◌<◌};
ghost use Rattle.days.specs.DayOf.{day_of};
ghost use Rattle.changes.specs.Days.{asked, within};
ghost use Rattle.changes.specs.Search.{other, today};
ghost use Rattle.changes.specs.Words.{Ordered, state_in, shown_in};

use days::Day;

// 10000-01-01.
const LAST_DAY: u32 = 3652426;

#[tactic(auto, unfolding(crate::specs::Days::asked))]
fn days_asked(days: u32) -> u32
    ensures { result ≡ asked days }
{
    if days == 0 { 366 } else { days }
}

// The days asked for, as far as they lie before 10000-01-01.
#[tactic(auto, unfolding(crate::specs::Days::within))]
pub fn days_within(days: u32, n: u32) -> u32
    ensures { result ≡ within days n }
{
    days_asked(days).min(LAST_DAY.saturating_sub(n))
}

// The first minute from `from` on at which the ranges don't show the state of s, a hole being closed.
pub fn first_other(words: &[u32], s: u32, from: u32) -> Option<u32>
    requires { Ordered words.now × (from ≤ 1440) }
    ensures { result ≡ today (other (λ u. shown_in words.now u) (state_in s) from (1440 - from)) }
{
    let shut = ranges::alike(256, s);
    let mut t = from;
    for &w in words {
        let start = ranges::start(w);
        if t < start && !shut {
            return Some(t);
        }
        let inside = t.max(start);
        let end = ranges::end(w);
        if inside < end && !ranges::alike(w, s) {
            return Some(inside);
        }
        t = inside.max(end);
    }
    if shut || t == 1440 { None } else { Some(t) }
}

// Tomorrow. In the first two years, where `back` does not serve, from the number.
pub fn day_after(d: Day) -> Day
    requires { (d ≡ day_of d.number) × (367 ≤ d.number) × (d.number < 4000000) }
    ensures { result ≡ day_of (d.number + 1) }
{
    if 733 <= d.number {
        days::back(d, -1)
    } else {
        days::day_on(calendar::date_of(d.number + 1))
    }
}
