// Year and week items.
ghost use Rattle.std.specs.Prelude.{◌≡◌, ◌≤◌, IfSome};
ghost use Rattle.rule_words.specs.Words.{year_taken, week_taken};

use crate::Taken;
use rules::{WeekItem, YearItem};

#[tactic(auto, unfolding(crate::specs::Words::year_taken, crate::specs::Words::year_good, crate::specs::Words::year_of))]
pub fn year(word: u64) -> Option<Taken<YearItem>>
    ensures taken { result ≡ year_taken word }
    ensures narrow { IfSome result (λ t. t.width ≤ 42) }
{
    let start = crate::number(word, 50, 14, 1900, 9999)?;
    let end = crate::number(word, 36, 14, 1900, 9999)?;
    let step = crate::number(word, 22, 14, 1, 9999)?;
    Some(Taken {
        item: YearItem {
            start: start as u16,
            end: end as u16,
            step: step as u16,
        },
        width: 42,
    })
}

#[tactic(auto, unfolding(crate::specs::Words::week_taken, crate::specs::Words::week_good, crate::specs::Words::week_of))]
pub fn week(word: u64) -> Option<Taken<WeekItem>>
    ensures taken { result ≡ week_taken word }
    ensures narrow { IfSome result (λ t. t.width ≤ 18) }
{
    let start = crate::number(word, 58, 6, 1, 53)?;
    let end = crate::number(word, 52, 6, 1, 53)?;
    let step = crate::number(word, 46, 6, 1, 53)?;
    Some(Taken {
        item: WeekItem {
            start: start as u8,
            end: end as u8,
            step: step as u8,
        },
        width: 18,
    })
}
