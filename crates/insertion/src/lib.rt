// Insertion of a range into ranges in order, as words, in one room that is worked in place.
#![tactic(auto)]

ghost use Rattle.std.specs.Prelude.{◌≡◌, reverse, ◌++◌, ◌+◌, ◌<◌, ◌≤◌, length, take, drop, ℕ, slice_index};
ghost use Rattle.ranges.specs.States.{InOrder};
ghost use Rattle.ranges.specs.Insertion.{join_r, join_l, insert_r};
ghost use Rattle.ranges.specs.Words.{range_of, ranges};
ghost use Rattle.insertion.specs.Plan.{head_l, rest_l};
ghost use Rattle.insertion.specs.Parts.{Reaches, pieces, Behind, Before, Planned, Inserted, Put};

// The first place whose range ends after minute s, or the number of ranges.
fn passed(held: &[u32], s: u32) -> usize
    ensures upto { result ≤ length held.now }
    ensures low { (k : ℕ) → k < result → (range_of (slice_index held.now k)).end ≤ s }
    ensures high { result < length held.now → s < (range_of (slice_index held.now result)).end }
{
    held.iter()
        .position(|&w| s < ranges::end(w))
        .unwrap_or(held.len())
}

// What an insertion leaves on one side: so many ranges, a piece of the one that is cut, and the range that is put in, joined with what touches it.
#[derive(Drop)]
struct Side {
    kept: usize,
    piece: Option<u32>,
    word: u32,
}

fn join_left(held: &[u32], x: u32) -> Side
    ensures { Before (join_l (reverse (ranges held.now)) (range_of x)) held.now result }
{
    let mut left = held;
    let mut word = x;
    while let [front @ .., r] = left {
        if !ranges::touches(*r, word) {
            break;
        }
        word = ranges::hull_of(*r, word);
        left = front;
    }
    Side {
        kept: left.len(),
        piece: None,
        word,
    }
}

fn join_right(held: &[u32], x: u32) -> Side
    ensures { Behind (join_r (range_of x) (ranges held.now)) held.now result }
{
    let mut right = held;
    let mut word = x;
    while let [r, behind @ ..] = right {
        if !ranges::touches(word, *r) {
            break;
        }
        word = ranges::hull_of(word, *r);
        right = behind;
    }
    Side {
        kept: right.len(),
        piece: None,
        word,
    }
}

// What stays left of x, which begins at minute s: the ranges in front end by s, and the first across ends after it.
fn left_of(front: &[u32], across: &[u32], s: u32, x: u32) -> Side
    requires { (s < 2048) × Reaches s across.now }
    ensures { Before (join_l (reverse (ranges front.now ++ head_l s (ranges across.now))) (range_of x)) front.now result }
{
    match across {
        [w, ..] if ranges::start(*w) < s => {
            let cut = ranges::from_to(ranges::start(*w), s, *w);
            if ranges::touches(cut, x) {
                join_left(front, ranges::hull_of(cut, x))
            } else {
                Side {
                    kept: front.len(),
                    piece: Some(cut),
                    word: x,
                }
            }
        }
        _ => join_left(front, x),
    }
}

// What stays right of x, which ends at minute e: the first of the ranges ends after it.
fn right_of(held: &[u32], e: u32, x: u32) -> Side
    requires { (e < 2048) × Reaches e held.now }
    ensures { Behind (join_r (range_of x) (rest_l e (ranges held.now))) held.now result }
{
    match held {
        [w, behind @ ..] if ranges::start(*w) < e => {
            let cut = ranges::from_to(e, ranges::end(*w), *w);
            if ranges::touches(x, cut) {
                join_right(behind, ranges::hull_of(x, cut))
            } else {
                Side {
                    kept: behind.len(),
                    piece: Some(cut),
                    word: x,
                }
            }
        }
        _ => join_right(held, x),
    }
}

// What an insertion makes: the first `front` ranges, the word between the pieces that are there, and the last `behind` ranges.
#[derive(Drop)]
struct Plan {
    front: usize,
    cut: Option<u32>,
    word: u32,
    rest: Option<u32>,
    behind: usize,
}

fn planned(held: &[u32], x: u32) -> Plan
    requires { (InOrder 0 (ranges held.now) 1440) × ((range_of x).start < (range_of x).end) }
    ensures { Planned (insert_r (range_of x) (ranges held.now)) held.now result }
{
    let s = ranges::start(x);
    let e = ranges::end(x);
    let k = passed(held, s);
    let across = &held[k..];
    let right = right_of(&across[passed(across, e)..], e, x);
    let left = left_of(&held[..k], across, s, right.word);
    Plan {
        front: left.kept,
        cut: left.piece,
        word: left.word,
        rest: right.piece,
        behind: right.kept,
    }
}

fn count(piece: Option<u32>) -> usize
    ensures { result ≡ length (pieces piece) }
{
    usize::from(piece.is_some())
}

// Stores the piece, if there is one.
fn put(room: &mut [u32], at: usize, piece: Option<u32>)
    requires { at + length (pieces piece) ≤ length room.old }
    ensures { Put room.old at piece room.new }
{
    if let Some(w) = piece {
        room[at] = w;
    }
}

// Puts x in place of what it covers among the first n ranges, and says how many there are then.
pub fn insert(room: &mut [u32], n: usize, x: u32) -> usize
    requires { (n + 2 ≤ length room.old) × ((InOrder 0 (ranges (take n room.old)) 1440) × ((range_of x).start < (range_of x).end)) }
    ensures { Inserted (insert_r (range_of x) (ranges (take n room.old))) room.old room.new n result }
{
    let plan = planned(&room[..n], x);
    let at = plan.front + count(plan.cut);
    let behind = at + 1 + count(plan.rest);
    room.copy_within(n - plan.behind..n, behind);
    put(room, plan.front, plan.cut);
    room[at] = plan.word;
    put(room, at + 1, plan.rest);
    behind + plan.behind
}
