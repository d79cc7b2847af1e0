// Ranges as words: start 11 bits, end 11, kind 2, comment 8, the listing's own form.
#![tactic(auto)]

ghost use Rattle.std.specs.Prelude.{◌≡◌, ◌≤◌, ◌<◌, length};
ghost use Rattle.ranges.specs.Range.{between, touch, same, hull};
ghost use Rattle.ranges.specs.States.{fits_b, order_b};
ghost use Rattle.ranges.specs.Words.{range_of, ranges, Copied};

#[tactic(auto, unfolding(crate::specs::Words::range_of))]
pub fn start(w: u32) -> u32
    ensures { (result ≡ (range_of w).start) × (result < 2048) }
{
    w / 2097152
}

#[tactic(auto, unfolding(crate::specs::Words::range_of))]
pub fn end(w: u32) -> u32
    ensures { (result ≡ (range_of w).end) × (result < 2048) }
{
    w / 1024 % 2048
}

// The state of w between two minutes.
#[tactic(auto, using(crate::proofs::WordLaws::between_is))]
pub fn from_to(s: u32, e: u32, w: u32) -> u32
    requires { (s < 2048) × (e < 2048) }
    ensures { range_of result ≡ between s e (range_of w) }
{
    s * 2097152 + e * 1024 + w % 1024
}

pub fn hull_of(a: u32, b: u32) -> u32
    ensures { range_of result ≡ hull (range_of a) (range_of b) }
{
    from_to(start(a), end(b), a)
}

#[tactic(auto, using(crate::proofs::WordLaws::same_is))]
pub fn alike(a: u32, b: u32) -> bool
    ensures { result ≡ same (range_of a) (range_of b) }
{
    a % 1024 == b % 1024
}

pub fn touches(a: u32, b: u32) -> bool
    ensures { result ≡ touch (range_of a) (range_of b) }
{
    end(a) == start(b) && alike(a, b)
}

// Whether w may stand at minute lo or later.
#[tactic(auto, unfolding(crate::specs::Words::range_of))]
fn fits(lo: u32, w: u32) -> bool
    ensures { result ≡ fits_b lo (range_of w) }
{
    lo <= start(w) && start(w) < end(w) && w / 256 % 4 <= 2
}

// Whether the ranges are sorted, disjoint, not empty, within the day and of kinds 0 to 2.
pub fn in_order(words: &[u32]) -> bool
    ensures { result ≡ order_b 0 (ranges words.now) }
{
    let mut lo = 0;
    for &w in words {
        if !fits(lo, w) {
            return false;
        }
        lo = end(w);
    }
    lo <= 1440
}

// The words, over what stood in front.
pub fn copy_in(a: &[u32], out: &mut [u32])
    requires { length a.now ≤ length out.old }
    ensures { Copied a.now out.old out.new }
{
    out[..a.len()].copy_from_slice(a);
}
