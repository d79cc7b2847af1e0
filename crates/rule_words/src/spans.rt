// Times.
ghost use Rattle.std.specs.Prelude.{◌≡◌, ◌≤◌, IfSome};
ghost use Rattle.rule_words.specs.Words.{time_taken};

use crate::Taken;
use rules::Time;

#[tactic(auto, unfolding(crate::specs::Words::time_taken))]
pub fn time(word: u64) -> Option<Taken<Time>>
    ensures taken { result ≡ time_taken word }
    ensures narrow { IfSome result (λ t. t.width ≤ 15) }
{
    if crate::part(word, 63, 1) == 0 {
        let minute = crate::number(word, 51, 12, 0, 2880)?;
        return Some(Taken {
            item: Time::Fixed(minute as u16),
            width: 13,
        });
    }
    let offset = crate::signed(word, 49, 12, 1440)?;
    Some(Taken {
        item: Time::Variable {
            event: crate::part(word, 61, 2) as u8,
            offset,
        },
        width: 15,
    })
}
