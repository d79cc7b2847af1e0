// Schedules by value: at most 64 ranges, kept as words; additions and builds are worked in place in one room.
#![tactic(auto)]

ghost use Rattle.std.specs.Prelude.{◌≡◌, [], true, cond, Ok, ◌+◌, ◌*◌, ◌≤◌, ◌<◌, length, take};
ghost use Rattle.refusals.specs.Numbers.{refused};
ghost use Rattle.refusals.specs.declared.Cause.TheVariants.{BadSchedule};
ghost use Rattle.ranges.specs.Insertion.{add_r};
ghost use Rattle.ranges.specs.Build.{build_r, ends_b, spans};
ghost use Rattle.ranges.specs.Closed.{blank_b, shut_b, drop_r};
ghost use Rattle.ranges.specs.Words.{range_of, ranges};
ghost use Rattle.schedule.specs.Schedules.{view, made, valid, within, build_of, addition_of, drop_of};
ghost use Rattle.schedule.specs.Rooms.{Leaves, AddReady, BuildReady};

use refusals::{Cause, Refusal};

// Puts the ranges of b over the first n of the room, from last to first.
pub fn add_in(room: &mut [u32], n: usize, b: &[u32]) -> usize
    requires { AddReady room.old n b.now }
    ensures { Leaves (add_r (ranges (take n room.old)) (ranges b.now)) room.new (n + 2 * length b.now) result }
{
    let mut count = n;
    for &w in b.iter().rev() {
        count = insertion::insert(room, count, w);
    }
    count
}

// The word of a kind and a comment, from minute 0 to 0.
fn state_of(kind: u8, comment: u8) -> u32
    ensures { result ≡ kind * 256 + comment }
{
    u32::from(kind) * 256 + u32::from(comment)
}

// The runs of the given spans (start in the upper half of a word, end in the lower), in one state.
pub fn build_in(given: &[u32], kind: u8, comment: u8, room: &mut [u32]) -> usize
    requires { BuildReady given.now kind room.old }
    ensures { Leaves (build_r kind comment (spans given.now)) room.new (length given.now) result }
{
    let state = state_of(kind, comment);
    let mut count = 0;
    for &w in given.iter().rev() {
        let s = w / 65536;
        let e = w % 65536;
        if s < e {
            count = insertion::insert(room, count, ranges::from_to(s, e, state));
        }
    }
    count
}

// Closed, without a comment.
#[tactic(auto, using(crate::proofs::Dropping::blank_is))]
fn blank(w: u32) -> bool
    ensures { result ≡ blank_b (range_of w) }
{
    w % 1024 == 256
}

// Leaves out the closed ranges without comment among the first n.
pub fn drop_in(room: &mut [u32], n: usize) -> usize
    requires { n ≤ length room.old }
    ensures { Leaves (drop_r (ranges (take n room.old))) room.new n result }
{
    let mut kept = 0;
    for i in 0..n {
        let w = room[i];
        if !blank(w) {
            room[kept] = w;
            kept += 1;
        }
    }
    kept
}

// Whether the ranges are all closed without comment.
pub fn is_shut(words: &[u32]) -> bool
    ensures { result ≡ shut_b (ranges words.now) }
{
    words.iter().all(|&w| blank(w))
}

#[derive(Clone, Copy)]
pub struct Schedule {
    pub len: usize,
    pub words: [u32; 64],
}

pub fn empty() -> Schedule
    ensures { result ≡ made [] }
{
    Schedule {
        len: 0,
        words: [0; 64],
    }
}

// The words as a schedule.
pub fn copy_out(words: &[u32]) -> Schedule
    requires { length words.now ≤ 64 }
    ensures { result ≡ made (ranges words.now) }
{
    let mut room = [0; 64];
    ranges::copy_in(words, &mut room);
    Schedule {
        len: words.len(),
        words: room,
    }
}

pub fn is_valid(s: Schedule) -> bool
    ensures { result ≡ valid s }
{
    s.len <= 64 && ranges::in_order(&s.words[..s.len])
}

// Refuses a schedule that is not valid.
fn check(s: Schedule, place: usize) -> Result<(), Refusal>
    ensures { result ≡ cond (valid s) (Ok tt) (refused BadSchedule place) }
{
    if is_valid(s) {
        Ok(())
    } else {
        Err(Refusal {
            cause: Cause::BadSchedule,
            place,
        })
    }
}

// The second over the first.
fn added(a: Schedule, b: Schedule) -> Result<Schedule, Refusal>
    requires { (valid a ≡ true) × (valid b ≡ true) }
    ensures { result ≡ within (add_r (view a) (view b)) }
{
    let mut room = [0; 192];
    ranges::copy_in(&a.words[..a.len], &mut room);
    let n = add_in(&mut room, a.len, &b.words[..b.len]);
    if n <= 64 {
        Ok(copy_out(&room[..n]))
    } else {
        Err(Refusal {
            cause: Cause::TooManyRanges,
            place: 0,
        })
    }
}

pub fn addition(a: Schedule, b: Schedule) -> Result<Schedule, Refusal>
    ensures { result ≡ addition_of a b }
{
    check(a, 0)?;
    check(b, 1)?;
    added(a, b)
}

// Whether no span ends past 24:00.
fn ends_fit(given: &[u32]) -> bool
    ensures { result ≡ ends_b (spans given.now) }
{
    given.iter().all(|&w| w % 65536 <= 1440)
}

pub fn build(given: &[u32], kind: u8, comment: u8) -> Result<Schedule, Refusal>
    ensures { result ≡ build_of given.now kind comment }
{
    if kind > 2 {
        return Err(Refusal {
            cause: Cause::NoMeaning,
            place: 0,
        });
    }
    if given.len() > 64 || !ends_fit(given) {
        return Err(Refusal {
            cause: Cause::PastLimits,
            place: 0,
        });
    }
    let mut room = [0; 192];
    let n = build_in(given, kind, comment, &mut room);
    Ok(copy_out(&room[..n]))
}

pub fn drop_closed(s: Schedule) -> Result<Schedule, Refusal>
    ensures { result ≡ drop_of s }
{
    check(s, 0)?;
    let mut words = s.words;
    let n = drop_in(&mut words, s.len);
    Ok(copy_out(&words[..n]))
}
