// The listing of a day: holes closed, equal neighbours joined, at most 129 entries, as words.
#![tactic(auto)]

ghost use Rattle.std.specs.Prelude.{◌≡◌, ◌≤◌, ◌<◌, length, take};
ghost use Rattle.ranges.specs.States.{covers, state_at, lit};
ghost use Rattle.ranges.specs.Words.{range_of, ranges};
ghost use Rattle.listing.specs.Listing.{closed, holes_l, merged_l, listing, state_word};
ghost use Rattle.listing.specs.Writing.{Closes, Entries, ListReady, Writes, Answers};

use refusals::{Cause, Refusal};
use schedule::Schedule;

fn hole(a: u32, b: u32) -> u32
    requires { (a < 2048) × (b < 2048) }
    ensures { range_of result ≡ closed a b }
{
    ranges::from_to(a, b, 256)
}

// Stores a closed range behind the first n, if it is not empty, and says how many there are then.
fn close(room: &mut [u32], n: usize, a: u32, b: u32) -> usize
    requires { (a < 2048) × ((b < 2048) × ((n ≤ length room.old) × (a < b → n < length room.old))) }
    ensures { Closes room.old n a b room.new result }
{
    if a < b {
        room[n] = hole(a, b);
        n + 1
    } else {
        n
    }
}

// The ranges, with a closed one in each hole.
fn fill(words: &[u32], room: &mut [u32]) -> usize
    requires { ListReady words.now × (129 ≤ length room.old) }
    ensures { Entries (holes_l 0 (ranges words.now)) room.new 129 result }
{
    let mut count = 0;
    let mut from = 0;
    for &w in words {
        count = close(room, count, from, ranges::start(w));
        room[count] = w;
        count += 1;
        from = ranges::end(w);
    }
    close(room, count, from, 1440)
}

// Neighbours of the same state made one.
fn merge(room: &mut [u32], n: usize) -> usize
    requires { (0 < n) × (n ≤ length room.old) }
    ensures { Entries (merged_l (ranges (take n room.old))) room.new n result }
{
    let mut current = room[0];
    let mut count = 0;
    for i in 1..n {
        let next = room[i];
        if ranges::alike(current, next) {
            current = ranges::hull_of(current, next);
        } else {
            room[count] = current;
            count += 1;
            current = next;
        }
    }
    room[count] = current;
    count + 1
}

// The entries of the ranges, in a room of 129.
pub fn list_in(words: &[u32], room: &mut [u32]) -> usize
    requires { ListReady words.now × (129 ≤ length room.old) }
    ensures { Entries (listing (ranges words.now)) room.new 129 result }
{
    let count = fill(words, room);
    merge(room, count)
}

// Writes the listing of the ranges to the front of `out`, and says how many entries it has.
pub fn write_in(words: &[u32], out: &mut [u32]) -> Result<usize, Refusal>
    requires { ListReady words.now }
    ensures { Writes (ranges words.now) out.old out.new result }
{
    let mut room = [0; 129];
    let count = list_in(words, &mut room);
    if count > out.len() {
        return Err(Refusal {
            cause: Cause::NoRoom,
            place: count,
        });
    }
    ranges::copy_in(&room[..count], out);
    Ok(count)
}

pub fn write_listing(s: Schedule, out: &mut [u32]) -> Result<usize, Refusal>
    ensures { Answers s out.old out.new result }
{
    if !schedule::is_valid(s) {
        return Err(Refusal {
            cause: Cause::BadSchedule,
            place: 0,
        });
    }
    write_in(&s.words[..s.len], out)
}

fn covers_minute(w: u32, t: u32) -> bool
    ensures { result ≡ covers (range_of w) t }
{
    ranges::start(w) <= t && t < ranges::end(w)
}

// The state that the entries show at minute t, as the low ten bits of a word; a hole is closed.
pub fn state_at(words: &[u32], t: u32) -> u32
    ensures { result ≡ state_word (lit (state_at (ranges words.now) t)) }
{
    match words.iter().find(|&&w| covers_minute(w, t)) {
        Some(&w) => w % 1024,
        None => 256,
    }
}
