// Items at the front of a word: judged whole, and taken apart.
#![tactic(auto)]

pub mod dates;
pub mod spans;
pub mod weekdays;
pub mod years;

ghost use Rattle.std.specs.Prelude.{◌≡◌, ◌≤◌, ◌^◌};
ghost use Rattle.bits.specs.Bits.{part};
ghost use Rattle.bits.specs.Place.{within, at_most};
ghost use Rattle.bits.specs.Signed.{signed_of};
ghost use Rattle.rule_words.specs.Words.{Kept};

// An item, and how many bits of the word it has.
#[derive(Clone, Copy)]
pub struct Taken<T> {
    pub item: T,
    pub width: usize,
}

// The bits of a word in front of its last few.
fn part(word: u64, below: u32, width: u32) -> u64
    requires { (below ≤ 63) × (width ≤ 32) }
    ensures { result ≡ part word below width }
{
    (word >> below) % (1 << width)
}

// The number that they make, where it is from low to high.
fn number(word: u64, below: u32, width: u32, low: u64, high: u64) -> Option<u64>
    requires { (below ≤ 63) × (width ≤ 32) }
    ensures { Kept result (within low high (part word below width)) (part word below width) }
{
    let value = part(word, below, width);
    bits::between(value, low, high).then_some(value)
}

// The number that they make in two's complement, where it is at most limit from 0.
fn signed(word: u64, below: u32, width: u32, limit: u32) -> Option<i16>
    requires { (below ≤ 63) × (width ≤ 15) }
    ensures { Kept result (at_most limit (signed_of (2 ^ width) (part word below width))) (signed_of (2 ^ width) (part word below width)) }
{
    let value = part(word, below, width) as u32;
    let full = 1 << width;
    (bits::magnitude(value, full) <= limit).then_some(bits::extend(value, full))
}
