// Small codes, matched by number and range: what no arm takes has no meaning.
ghost use Rattle.std.specs.Prelude.{◌<◌, ◌^◌};
ghost use Rattle.refusals.specs.declared.Cause.TheVariants.{PastEnd, NoMeaning};
ghost use Rattle.bits.specs.Place.{At, bit_of, Found, FoundFrom, Number, NumberOf};
ghost use Rattle.rule_items.specs.Codes.{operator_at};

use bits::Reading;
use bits::standing::{Place, Refuses};
use refusals::{Cause, Refusal};
use rules::Operator;

fn operator_from(image: &[u8], at: usize) -> Result<Reading<Operator>, Refusal>
    requires { at < 2 ^ 31 }
    ensures { Found result (operator_at image.now (At at)) at 2 }
{
    let code = bits::number(image, at, 2, 0, 3, Cause::NoMeaning)?;
    let item = match code.item {
        0 => Operator::Normal,
        1 => Operator::Additional,
        2 => Operator::Fallback,
        _ => {
            return Err(Refusal {
                cause: Cause::NoMeaning,
                place: at,
            });
        }
    };
    Ok(Reading {
        item,
        end: code.end,
    })
}

pub fn operator<P: Place>(image: &[u8], at: P) -> Result<Reading<Operator>, P::Refusal>
    requires { bit_of (P.given at) < 2 ^ 31 }
    ensures { FoundFrom P.Refusal.says P.Refusal.refuses result (P.given at) (operator_at image.now) 2 }
{
    P::Refusal::state(operator_from(image, at.bit()?))
}

#[tactic(auto, using(crate::proofs::ItemLaws::kind_kept))]
fn kind_from(image: &[u8], at: usize) -> Result<Reading<u32>, Refusal>
    requires { at < 2 ^ 31 }
    ensures { Number result image.now at 2 0 2 NoMeaning }
{
    let code = bits::number(image, at, 2, 0, 3, Cause::NoMeaning)?;
    match code.item {
        0..=2 => Ok(code),
        _ => Err(Refusal {
            cause: Cause::NoMeaning,
            place: at,
        }),
    }
}

#[tactic(auto, using(bits::proofs::ReadLaws::stated_number))]
pub fn kind<P: Place>(image: &[u8], at: P) -> Result<Reading<u32>, P::Refusal>
    requires { bit_of (P.given at) < 2 ^ 31 }
    ensures { NumberOf (P.Refusal.says PastEnd) P.Refusal.refuses result image.now (P.given at) 2 0 2 (P.Refusal.says NoMeaning) }
{
    P::Refusal::state(kind_from(image, at.bit()?))
}

#[tactic(auto, using(crate::proofs::ItemLaws::weekday_kept))]
pub(crate) fn weekday_from(image: &[u8], at: usize) -> Result<Reading<u32>, Refusal>
    requires { at < 2 ^ 31 }
    ensures { Number result image.now at 3 0 6 NoMeaning }
{
    let code = bits::number(image, at, 3, 0, 7, Cause::NoMeaning)?;
    match code.item {
        0..=6 => Ok(code),
        _ => Err(Refusal {
            cause: Cause::NoMeaning,
            place: at,
        }),
    }
}

#[tactic(auto, using(bits::proofs::ReadLaws::stated_number))]
pub fn weekday<P: Place>(image: &[u8], at: P) -> Result<Reading<u32>, P::Refusal>
    requires { bit_of (P.given at) < 2 ^ 31 }
    ensures { NumberOf (P.Refusal.says PastEnd) P.Refusal.refuses result image.now (P.given at) 3 0 6 (P.Refusal.says NoMeaning) }
{
    P::Refusal::state(weekday_from(image, at.bit()?))
}
