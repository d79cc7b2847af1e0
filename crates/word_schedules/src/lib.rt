// Build, addition and listing over slices of words, as one outside the library offers and lends them.
#![tactic(auto)]

ghost use Rattle.std.specs.Prelude.{◌≡◌, true, cond, Ok, ◌≤◌, length, take};
ghost use Rattle.refusals.specs.Numbers.{refused};
ghost use Rattle.refusals.specs.declared.Cause.TheVariants.{BadSchedule};
ghost use Rattle.schedule.specs.Schedules.{valid, build_of, addition_of};
ghost use Rattle.listing.specs.Writing.{Answers};
ghost use Rattle.word_schedules.specs.Stored.{offered, Fits, Stores};

use refusals::{Cause, Refusal};

// Whether the words are a schedule.
fn is_offered(words: &[u32]) -> bool
    ensures { result ≡ valid (offered words.now) }
{
    words.len() <= 64 && ranges::in_order(words)
}

// Refuses words that are no schedule.
fn check(words: &[u32], place: usize) -> Result<(), Refusal>
    ensures { result ≡ cond (valid (offered words.now)) (Ok tt) (refused BadSchedule place) }
{
    if is_offered(words) {
        Ok(())
    } else {
        Err(Refusal {
            cause: Cause::BadSchedule,
            place,
        })
    }
}

// The words to the front of `out`, if they fit, and how many they are.
#[tactic(auto, unfolding(crate::specs::Stored::fitted, crate::specs::Stored::fitted_cells))]
fn store(words: &[u32], out: &mut [u32]) -> Result<usize, Refusal>
    ensures { Fits words.now out.old out.new result }
{
    if words.len() > out.len() {
        return Err(Refusal {
            cause: Cause::NoRoom,
            place: words.len(),
        });
    }
    out[..words.len()].copy_from_slice(words);
    Ok(words.len())
}

// The runs of the given spans (start in the upper half of a word, end in the lower), in one state.
pub fn build(given: &[u32], kind: u8, comment: u8, out: &mut [u32]) -> Result<usize, Refusal>
    ensures { Stores (build_of given.now kind comment) out.old out.new result }
{
    let built = schedule::build(given, kind, comment)?;
    store(&built.words[..built.len], out)
}

// The second over the first.
fn added(a: &[u32], b: &[u32], out: &mut [u32]) -> Result<usize, Refusal>
    requires { (valid (offered a.now) ≡ true) × (valid (offered b.now) ≡ true) }
    ensures { Stores (addition_of (offered a.now) (offered b.now)) out.old out.new result }
{
    let mut room = [0; 192];
    ranges::copy_in(a, &mut room);
    let n = schedule::add_in(&mut room, a.len(), b);
    if n > 64 {
        return Err(Refusal {
            cause: Cause::TooManyRanges,
            place: 0,
        });
    }
    store(&room[..n], out)
}

pub fn addition(a: &[u32], b: &[u32], out: &mut [u32]) -> Result<usize, Refusal>
    ensures { Stores (addition_of (offered a.now) (offered b.now)) out.old out.new result }
{
    check(a, 0)?;
    check(b, 1)?;
    added(a, b, out)
}

pub fn write_listing(words: &[u32], out: &mut [u32]) -> Result<usize, Refusal>
    ensures { Answers (offered words.now) out.old out.new result }
{
    check(words, 0)?;
    listing::write_in(words, out)
}
