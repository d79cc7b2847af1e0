// Weekday items.
ghost use Rattle.std.specs.Prelude.{◌≡◌, ◌≤◌, IfSome};
ghost use Rattle.rule_words.specs.Words.{weekdays_taken, holiday_taken, weekday_taken};

use crate::Taken;
use rules::{WeekdayItem, WeekdayRange};

#[tactic(auto, unfolding(crate::specs::Words::weekdays_taken, crate::specs::Words::weekdays_good))]
fn weekdays(word: u64) -> Option<Taken<WeekdayItem>>
    ensures taken { result ≡ weekdays_taken word }
    ensures narrow { IfSome result (λ t. t.width ≤ 27) }
{
    let start = crate::number(word, 60, 3, 0, 6)?;
    let end = crate::number(word, 57, 3, 0, 6)?;
    let offset = crate::signed(word, 37, 10, 366)?;
    Some(Taken {
        item: WeekdayItem {
            form: WeekdayRange::Fixed {
                start: start as u8,
                end: end as u8,
                from_start: crate::part(word, 52, 5) as u8,
                from_end: crate::part(word, 47, 5) as u8,
                offset,
            },
        },
        width: 27,
    })
}

#[tactic(auto, unfolding(crate::specs::Words::holiday_taken, crate::specs::Words::holiday_good))]
fn holiday(word: u64) -> Option<Taken<WeekdayItem>>
    ensures taken { result ≡ holiday_taken word }
    ensures narrow { IfSome result (λ t. t.width ≤ 27) }
{
    let offset = crate::signed(word, 52, 10, 366)?;
    Some(Taken {
        item: WeekdayItem {
            form: WeekdayRange::Holiday {
                school: crate::part(word, 62, 1) == 1,
                offset,
            },
        },
        width: 12,
    })
}

#[tactic(auto, unfolding(crate::specs::Words::weekday_taken))]
pub fn weekday(word: u64) -> Option<Taken<WeekdayItem>>
    ensures taken { result ≡ weekday_taken word }
    ensures narrow { IfSome result (λ t. t.width ≤ 27) }
{
    if crate::part(word, 63, 1) == 0 {
        weekdays(word)
    } else {
        holiday(word)
    }
}
