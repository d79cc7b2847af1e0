// Dates with an offset.
ghost use Rattle.std.specs.Prelude.{◌≡◌, ◌≤◌, IfSome};
ghost use Rattle.bits.specs.Bits.{part};
ghost use Rattle.rule_words.specs.Words.{Kept, flagged_good, fixed_taken, nth_taken, easter_taken};
ghost use Rattle.rule_words.specs.Words.{date_taken};

use crate::Taken;
use rules::{Date, DateOffset};

// A year, or 0 where its flag is not set.
#[tactic(auto, unfolding(crate::specs::Words::flagged_good))]
fn flagged_year(word: u64) -> Option<u64>
    ensures { Kept result (flagged_good word) (part word 47 14) }
{
    let flag = crate::part(word, 61, 1);
    crate::number(word, 47, 14, 1900 * flag, 9999 * flag)
}

#[tactic(auto, unfolding(crate::specs::Words::fixed_taken, crate::specs::Words::fixed_good))]
fn fixed(word: u64) -> Option<Taken<DateOffset>>
    ensures taken { result ≡ fixed_taken word }
    ensures narrow { IfSome result (λ t. t.width ≤ 38) }
{
    let year = flagged_year(word)?;
    let month = crate::number(word, 43, 4, 1, 12)?;
    let day = crate::number(word, 38, 5, 1, 31)?;
    let offset = crate::signed(word, 28, 10, 366)?;
    let date = Date::Fixed {
        year: year as u16,
        month: month as u8,
        day: day as u8,
    };
    Some(Taken {
        item: DateOffset { date, offset },
        width: 36,
    })
}

#[tactic(auto, unfolding(crate::specs::Words::nth_taken, crate::specs::Words::nth_good))]
fn nth(word: u64) -> Option<Taken<DateOffset>>
    ensures taken { result ≡ nth_taken word }
    ensures narrow { IfSome result (λ t. t.width ≤ 38) }
{
    let year = flagged_year(word)?;
    let month = crate::number(word, 43, 4, 1, 12)?;
    let weekday = crate::number(word, 40, 3, 0, 6)?;
    let nth = bits::extend(crate::part(word, 36, 4) as u32, 16);
    let offset = crate::signed(word, 26, 10, 366)?;
    let date = Date::Weekday {
        year: year as u16,
        month: month as u8,
        weekday: weekday as u8,
        nth,
    };
    Some(Taken {
        item: DateOffset { date, offset },
        width: 38,
    })
}

#[tactic(auto, unfolding(crate::specs::Words::easter_taken))]
fn easter(word: u64) -> Option<Taken<DateOffset>>
    ensures taken { result ≡ easter_taken word }
    ensures narrow { IfSome result (λ t. t.width ≤ 38) }
{
    let year = flagged_year(word)?;
    let offset = crate::signed(word, 37, 10, 366)?;
    let date = Date::Easter { year: year as u16 };
    Some(Taken {
        item: DateOffset { date, offset },
        width: 27,
    })
}

// Inlined, since a pair of dates calls it twice and the longest images are full of them.
#[inline(always)]
#[tactic(auto, unfolding(crate::specs::Words::date_taken))]
pub fn date_offset(word: u64) -> Option<Taken<DateOffset>>
    ensures taken { result ≡ date_taken word }
    ensures narrow { IfSome result (λ t. t.width ≤ 38) }
{
    match crate::part(word, 62, 2) {
        0 => fixed(word),
        1 => nth(word),
        2 => easter(word),
        _ => None,
    }
}
