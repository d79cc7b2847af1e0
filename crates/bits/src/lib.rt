// Bit fields of an image, most significant bit first, read by whole bytes; and what a reading answers: what it read, or its first refusal.
#![tactic(auto)]

ghost use Rattle.std.specs.Prelude.{◌≡◌, ◌+◌, ◌-◌, ◌*◌, ◌/◌, ◌%◌, ◌≤◌, ◌<◌, ◌^◌, length, nat_abs, Ok};
ghost use Rattle.refusals.specs.declared.Cause.TheVariants.{PastEnd};
ghost use Rattle.bits.specs.Bits.{bits, field_at, ahead_of};
ghost use Rattle.bits.specs.Place.{At, within, signed_at, bit_of, Found, FoundFrom, NumberOf};
ghost use Rattle.bits.specs.Signed.{signed_of};

pub mod standing;

use refusals::{Cause, Refusal};
use standing::{Place, Refuses};

// What was read, and the bit behind it.
#[derive(Clone, Copy)]
pub struct Reading<T> {
    pub item: T,
    pub end: usize,
}

// Eight bytes as one number: a single load of the machine.
fn window(image: &[u8], first: usize) -> u64
    requires { first + 8 ≤ length image.now }
    ensures { result ≡ bits image.now (8 * first) 64 }
{
    u64::from_be_bytes([
        image[first],
        image[first + 1],
        image[first + 2],
        image[first + 3],
        image[first + 4],
        image[first + 5],
        image[first + 6],
        image[first + 7],
    ])
}

// The bits of a window behind the first few.
fn cut(v: u64, skip: usize, width: usize) -> u32
    requires { (skip ≤ 7) × (1 ≤ width) × (width ≤ 32) }
    ensures { result ≡ v / 2 ^ (64 - (skip + width)) % 2 ^ width }
{
    ((v >> (64 - (skip + width))) % (1 << width)) as u32
}

// The 57 bits from a bit on and a few behind them, from the top of a word.
pub fn ahead(image: &[u8], at: usize) -> u64
    requires { at / 8 + 8 ≤ length image.now }
    ensures { result ≡ ahead_of image.now at }
{
    window(image, at / 8) << (at % 8)
}

// Whether a number is from low to high.
pub fn between(v: u64, low: u64, high: u64) -> bool
    ensures { result ≡ within low high v }
{
    low <= v && v <= high
}

// A field near the image's end, from the bytes that it touches.
fn last_bits(image: &[u8], at: usize, width: usize) -> u32
    requires { (1 ≤ width) × (width ≤ 32) × (at < 2 ^ 32) × (at + width ≤ 8 * length image.now) }
    ensures { result ≡ bits image.now at width }
{
    let end = (at + width + 7) / 8;
    let mut v: u64 = 0;
    for byte in &image[at / 8..end] {
        v = v * 256 + u64::from(*byte);
    }
    ((v >> (8 * end - (at + width))) % (1 << width)) as u32
}

// The number that bits within the image make.
pub fn bits_at(image: &[u8], at: usize, width: usize) -> u32
    requires { (1 ≤ width) × (width ≤ 32) × (at < 2 ^ 32) × (at + width ≤ 8 * length image.now) }
    ensures { result ≡ bits image.now at width }
{
    let first = at / 8;
    if first + 8 <= image.len() {
        return cut(window(image, first), at % 8, width);
    }
    last_bits(image, at, width)
}

// The same near the end, where the field may run past the image.
fn last_field(image: &[u8], at: usize, width: usize) -> Option<u32>
    requires { (1 ≤ width) × (width ≤ 32) × (at < 2 ^ 32) }
    ensures { result ≡ field_at image.now at width }
{
    if (at + width + 7) / 8 > image.len() {
        return None;
    }
    Some(last_bits(image, at, width))
}

// A field anywhere: one window where eight bytes are left, which hold every field of up to 32 bits.
pub fn read(image: &[u8], at: usize, width: usize) -> Option<u32>
    requires { (1 ≤ width) × (width ≤ 32) × (at < 2 ^ 32) }
    ensures { result ≡ field_at image.now at width }
{
    let first = at / 8;
    if first + 8 <= image.len() {
        return Some(cut(window(image, first), at % 8, width));
    }
    last_field(image, at, width)
}

// A number of width bits at a bit, from low to high; another is refused for the cause given.
fn number_from<R: Refuses>(
    image: &[u8],
    at: usize,
    width: usize,
    low: u32,
    high: u32,
    cause: R::Cause,
) -> Result<Reading<u32>, R>
    requires { (1 ≤ width) × (width ≤ 32) × (at < 2 ^ 32) }
    ensures { NumberOf (R.says PastEnd) R.refuses result image.now (Ok at) width low high cause }
{
    let Some(item) = read(image, at, width) else {
        return Err(R::refuse(R::say(Cause::PastEnd), at));
    };
    if !between(u64::from(item), u64::from(low), u64::from(high)) {
        return Err(R::refuse(cause, at));
    }
    Ok(Reading {
        item,
        end: at + width,
    })
}

// The same at any place; one that was refused before stays.
pub fn number<P: Place>(
    image: &[u8],
    at: P,
    width: usize,
    low: u32,
    high: u32,
    cause: <P::Refusal as Refuses>::Cause,
) -> Result<Reading<u32>, P::Refusal>
    requires { (1 ≤ width) × (width ≤ 32) × (bit_of (P.given at) < 2 ^ 32) }
    ensures { NumberOf (P.Refusal.says PastEnd) P.Refusal.refuses result image.now (P.given at) width low high cause }
{
    number_from::<P::Refusal>(image, at.bit()?, width, low, high, cause)
}

// One sign extension for every width: full is 2 to the width.
pub fn extend(v: u32, full: u32) -> i16
    requires { (v < full) × (full ≤ 32768) }
    ensures { result ≡ signed_of full v }
{
    if v < full / 2 {
        v as i16
    } else {
        (v as i32 - full as i32) as i16
    }
}

// How far from 0 a field's value in two's complement is.
pub fn magnitude(v: u32, full: u32) -> u32
    requires { (v < full) × (full ≤ 32768) }
    ensures { result ≡ nat_abs (signed_of full v) }
{
    if v < full / 2 { v } else { full - v }
}

// A signed number at a bit, at most limit from 0.
fn signed_from(
    image: &[u8],
    at: usize,
    width: usize,
    full: u32,
    limit: u32,
) -> Result<Reading<i16>, Refusal>
    requires { (1 ≤ width) × (width ≤ 15) × (at < 2 ^ 32) × (full ≡ 2 ^ width) }
    ensures { Found result (signed_at image.now (At at) width limit) at width }
{
    let Some(v) = read(image, at, width) else {
        return Err(Refusal {
            cause: Cause::PastEnd,
            place: at,
        });
    };
    if magnitude(v, full) > limit {
        return Err(Refusal {
            cause: Cause::PastLimits,
            place: at,
        });
    }
    Ok(Reading {
        item: extend(v, full),
        end: at + width,
    })
}

// The same at any place; one that was refused before stays.
pub fn signed_number<P: Place>(
    image: &[u8],
    at: P,
    width: usize,
    full: u32,
    limit: u32,
) -> Result<Reading<i16>, P::Refusal>
    requires { (1 ≤ width) × (width ≤ 15) × (bit_of (P.given at) < 2 ^ 32) × (full ≡ 2 ^ width) }
    ensures { FoundFrom P.Refusal.says P.Refusal.refuses result (P.given at) (λ p. signed_at image.now p width limit) width }
{
    P::Refusal::state(signed_from(image, at.bit()?, width, full, limit))
}
