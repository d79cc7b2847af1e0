// The end of an image: zero bits fill its last byte, and nothing follows.
ghost use Rattle.std.specs.Prelude.{◌≡◌, ◌<◌, ◌≤◌, ◌^◌};
ghost use Rattle.bits.specs.Place.{At};
ghost use Rattle.rule_image.specs.Reading.{fill_bits, ended, filled, stand};

use refusals::{Cause, Refusal};

fn fill_bits(image: &[u8], at: usize, count: usize) -> Result<usize, Refusal>
    requires { (at < 2 ^ 30) × (count ≤ 8) }
    ensures { result ≡ stand (fill_bits image.now (At at) count) }
{
    let mut end = at;
    for _ in 0..count {
        end = bits::number(image, end, 1, 0, 0, Cause::NotEnded)?.end;
    }
    Ok(end)
}

fn nothing_after(image: &[u8], at: usize) -> Result<usize, Refusal>
    ensures { result ≡ stand (ended image.now (At at)) }
{
    if at / 8 < image.len() {
        return Err(Refusal {
            cause: Cause::NotEnded,
            place: at,
        });
    }
    Ok(at)
}

pub fn filled(image: &[u8], at: usize) -> Result<usize, Refusal>
    requires { at < 2 ^ 30 }
    ensures { result ≡ stand (filled image.now (At at)) }
{
    let end = fill_bits(image, at, (8 - at % 8) % 8)?;
    nothing_after(image, end)
}
