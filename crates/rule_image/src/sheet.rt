// What stands in front of the rules: edition, reserved bits and count.
ghost use Rattle.std.specs.Prelude.{◌<◌, ◌≤◌, ◌^◌, IfOk};
ghost use Rattle.refusals.specs.declared.Cause.TheVariants.{NoMeaning};
ghost use Rattle.bits.specs.Place.{Found, Number};
ghost use Rattle.rule_image.specs.Reading.{header_at};

use crate::Header;
use bits::Reading;
use refusals::{Cause, Refusal};

#[tactic(auto, using(crate::proofs::ReadingLaws::edition_kept))]
fn edition(image: &[u8]) -> Result<Reading<u32>, Refusal>
    ensures { Number result image.now 0 4 1 1 NoMeaning }
{
    let code = bits::number(image, 0, 4, 0, 15, Cause::NoMeaning)?;
    match code.item {
        1 => Ok(code),
        _ => Err(Refusal {
            cause: Cause::NoMeaning,
            place: 0,
        }),
    }
}

#[tactic(auto, using(crate::proofs::ReadingLaws::reserved_kept))]
fn reserved(image: &[u8], at: usize) -> Result<Reading<u32>, Refusal>
    requires { at < 2 ^ 30 }
    ensures { Number result image.now at 6 0 0 NoMeaning }
{
    let code = bits::number(image, at, 6, 0, 63, Cause::NoMeaning)?;
    match code.item {
        0 => Ok(code),
        _ => Err(Refusal {
            cause: Cause::NoMeaning,
            place: at,
        }),
    }
}

pub fn header(image: &[u8]) -> Result<Reading<Header>, Refusal>
    ensures found { Found result (header_at image.now) 0 16 }
    ensures count_bound { IfOk result (λ r. r.item.count ≤ 32) }
{
    let edition = edition(image)?;
    let reserved = reserved(image, edition.end)?;
    let count = bits::number(image, reserved.end, 6, 0, 32, Cause::PastLimits)?;
    Ok(Reading {
        item: Header {
            edition: edition.item,
            count: count.item as usize,
        },
        end: count.end,
    })
}
